//! Runs of `zonemd` over devices in memory. The digests that no RFC has were made by Python's hashlib.
use crate::runs::first_other;
use std::test::Fail;

/// The zones of RFC 8976 in canonical order, and each with another last octet.
const PUBLISHED: [(&str, &str); 6] = [
    // RFC 8976, appendix A.1
    (
        "example.\n\
         7848b91c0101c68090d90a7aed716bc459f9340e3d7c1370d4d24b7e2fc3a1ddc0b9a87153b9a9713b3c9ae5cc27\
         777f98b8e730044c\n\
         example. 2 1 86400 036e7331076578616d706c6500\n\
         example. 2 1 86400 036e7332076578616d706c6500\n\
         example. 6 1 86400 036e7331076578616d706c65000561646d696e076578616d706c65007848b91c000007080\
         000038400093a8000015180\n\
         example. 63 1 86400 7848b91c0101c68090d90a7aed716bc459f9340e3d7c1370d4d24b7e2fc3a1ddc0b9a871\
         53b9a9713b3c9ae5cc27777f98b8e730044c\n\
         ns1.example. 1 1 3600 cb00713f\n\
         ns2.example. 28 1 3600 20010db8000000000000000000000063\n",
        "match",
    ),
    // RFC 8976, appendix A.2
    (
        "example.\n\
         7848b91c0101a3b69bad980a3504e1cffcb0fd6397f93848071c93151f552ae2f6b1711d4bd2d8b39808226d7b9d\
         b71e34b72077f8fe\n\
         example. 2 1 86400 036e7331076578616d706c6500\n\
         example. 2 1 86400 036e7332076578616d706c6500\n\
         example. 6 1 86400 036e7331076578616d706c65000561646d696e076578616d706c65007848b91c000007080\
         000038400093a8000015180\n\
         example. 63 1 86400 7848b91c0101a3b69bad980a3504e1cffcb0fd6397f93848071c93151f552ae2f6b1711d\
         4bd2d8b39808226d7b9db71e34b72077f8fe\n\
         *.example. 12 1 777 1b646f6e742d666f726765742d61626f75742d77696c646361726473076578616d706c65\
         00\n\
         duplicate.example. 16 1 300 1c49206d757374206265206469676573746564206a757374206f6e6365\n\
         duplicate.example. 16 1 300 1c49206d757374206265206469676573746564206a757374206f6e6365\n\
         mail.example. 15 1 3600 000a056d61696c32076578616d706c6500\n\
         mail.example. 15 1 3600 0014056d61696c31076578616d706c6500\n\
         non-apex.example. 63 1 900 7848b91c0101616c6c6f776564206275742069676e6f7265642e20616c6c6f776\
         564206275742069676e6f7265642e20616c6c6f7765\n\
         ns1.example. 1 1 3600 cb00713f\n\
         NS2.example. 28 1 3600 20010db8000000000000000000000063\n\
         sortme.example. 28 1 3600 20010db8000000000000000000010065\n\
         sortme.example. 28 1 3600 20010db8000000000000000000020064\n\
         sortme.example. 28 1 3600 20010db8000000000000000000030062\n\
         sortme.example. 28 1 3600 20010db8000000000000000000040063\n\
         sortme.example. 28 1 3600 20010db8000000000000000000050061\n\
         sub.example. 2 1 7200 036e7331076578616d706c6500\n\
         occluded.sub.example. 16 1 7200 2149276d206f63636c7564656420627574206d7573742062652064696765\
         73746564\n\
         UPPERCASE.example. 16 1 3600 2263616e6f6e6963616c697a6520757070657263617365206f776e6572206e6\
         16d6573\n",
        "match",
    ),
    // RFC 8976, appendix A.3
    (
        "example.\n\
         7848b91c010162e6cf51b02e54b9b5f967d547ce43136792901f9f88e637493daaf401c92c279dd10f0edb1c56f8\
         080211f8480ee306\n\
         example. 2 1 86400 036e7331076578616d706c6500\n\
         example. 2 1 86400 036e7332076578616d706c6500\n\
         example. 6 1 86400 036e7331076578616d706c65000561646d696e076578616d706c65007848b91c000007080\
         000038400093a8000015180\n\
         example. 63 1 86400 7848b91c010162e6cf51b02e54b9b5f967d547ce43136792901f9f88e637493daaf401c9\
         2c279dd10f0edb1c56f8080211f8480ee306\n\
         example. 63 1 86400 7848b91c010208cfa1115c7b948c4163a901270395ea226a930cd2cbcf2fa9a5e6eb85f3\
         7c8a4e114d884e66f176eab121cb02db7d652e0cc4827e7a3204f166b47e5613fd27\n\
         example. 63 1 86400 7848b91c01f0e2d523f654b9422a96c5a8f44607bbee\n\
         example. 63 1 86400 7848b91cf101e1846540e33a9e4189792d18d5d131f605fc283e\n\
         ns1.example. 1 1 3600 cb00713f\n\
         ns2.example. 16 1 86400 2154686973206578616d706c6520686173206d756c7469706c652064696765737473\
         \n\
         NS2.EXAMPLE. 28 1 3600 20010db8000000000000000000000063\n",
        "match",
    ),
    (
        "example.\n\
         7848b91c0101c68090d90a7aed716bc459f9340e3d7c1370d4d24b7e2fc3a1ddc0b9a87153b9a9713b3c9ae5cc27\
         777f98b8e730044c\n\
         example. 2 1 86400 036e7331076578616d706c6500\n\
         example. 2 1 86400 036e7332076578616d706c6500\n\
         example. 6 1 86400 036e7331076578616d706c65000561646d696e076578616d706c65007848b91c000007080\
         000038400093a8000015180\n\
         example. 63 1 86400 7848b91c0101c68090d90a7aed716bc459f9340e3d7c1370d4d24b7e2fc3a1ddc0b9a871\
         53b9a9713b3c9ae5cc27777f98b8e730044c\n\
         ns1.example. 1 1 3600 cb00713f\n\
         ns2.example. 28 1 3600 20010db8000000000000000000000060\n",
        "mismatch",
    ),
    (
        "example.\n\
         7848b91c0101a3b69bad980a3504e1cffcb0fd6397f93848071c93151f552ae2f6b1711d4bd2d8b39808226d7b9d\
         b71e34b72077f8fe\n\
         example. 2 1 86400 036e7331076578616d706c6500\n\
         example. 2 1 86400 036e7332076578616d706c6500\n\
         example. 6 1 86400 036e7331076578616d706c65000561646d696e076578616d706c65007848b91c000007080\
         000038400093a8000015180\n\
         example. 63 1 86400 7848b91c0101a3b69bad980a3504e1cffcb0fd6397f93848071c93151f552ae2f6b1711d\
         4bd2d8b39808226d7b9db71e34b72077f8fe\n\
         *.example. 12 1 777 1b646f6e742d666f726765742d61626f75742d77696c646361726473076578616d706c65\
         00\n\
         duplicate.example. 16 1 300 1c49206d757374206265206469676573746564206a757374206f6e6365\n\
         duplicate.example. 16 1 300 1c49206d757374206265206469676573746564206a757374206f6e6365\n\
         mail.example. 15 1 3600 000a056d61696c32076578616d706c6500\n\
         mail.example. 15 1 3600 0014056d61696c31076578616d706c6500\n\
         non-apex.example. 63 1 900 7848b91c0101616c6c6f776564206275742069676e6f7265642e20616c6c6f776\
         564206275742069676e6f7265642e20616c6c6f7765\n\
         ns1.example. 1 1 3600 cb00713f\n\
         NS2.example. 28 1 3600 20010db8000000000000000000000063\n\
         sortme.example. 28 1 3600 20010db8000000000000000000010065\n\
         sortme.example. 28 1 3600 20010db8000000000000000000020064\n\
         sortme.example. 28 1 3600 20010db8000000000000000000030062\n\
         sortme.example. 28 1 3600 20010db8000000000000000000040063\n\
         sortme.example. 28 1 3600 20010db8000000000000000000050061\n\
         sub.example. 2 1 7200 036e7331076578616d706c6500\n\
         occluded.sub.example. 16 1 7200 2149276d206f63636c7564656420627574206d7573742062652064696765\
         73746564\n\
         UPPERCASE.example. 16 1 3600 2263616e6f6e6963616c697a6520757070657263617365206f776e6572206e6\
         16d6570\n",
        "mismatch",
    ),
    (
        "example.\n\
         7848b91c010162e6cf51b02e54b9b5f967d547ce43136792901f9f88e637493daaf401c92c279dd10f0edb1c56f8\
         080211f8480ee306\n\
         example. 2 1 86400 036e7331076578616d706c6500\n\
         example. 2 1 86400 036e7332076578616d706c6500\n\
         example. 6 1 86400 036e7331076578616d706c65000561646d696e076578616d706c65007848b91c000007080\
         000038400093a8000015180\n\
         example. 63 1 86400 7848b91c010162e6cf51b02e54b9b5f967d547ce43136792901f9f88e637493daaf401c9\
         2c279dd10f0edb1c56f8080211f8480ee306\n\
         example. 63 1 86400 7848b91c010208cfa1115c7b948c4163a901270395ea226a930cd2cbcf2fa9a5e6eb85f3\
         7c8a4e114d884e66f176eab121cb02db7d652e0cc4827e7a3204f166b47e5613fd27\n\
         example. 63 1 86400 7848b91c01f0e2d523f654b9422a96c5a8f44607bbee\n\
         example. 63 1 86400 7848b91cf101e1846540e33a9e4189792d18d5d131f605fc283e\n\
         ns1.example. 1 1 3600 cb00713f\n\
         ns2.example. 16 1 86400 2154686973206578616d706c6520686173206d756c7469706c652064696765737473\
         \n\
         NS2.EXAMPLE. 28 1 3600 20010db8000000000000000000000060\n",
        "mismatch",
    ),
];

#[test]
fn published_zones_match(rt: HostRuntime) -> Result<(), Fail> {
    assert_eq!(rt; first_other(&rt, "zonemd", 0, &PUBLISHED)?, None);
    Ok(())
}

/// Inputs, each with what is written, without its last LF.
const CHECKED: [(&str, &str); 36] = [
    // no record, those that the digest leaves out, and one that it covers
    (
        "example.\n\
         00000001010138b060a751ac96384cd9327eb1b1e36a21fdb71114be07434c0cc7bf63f6e1da274edebfe76f65fb\
         d51ad2f14898b95b\n",
        "match",
    ),
    (
        "example.\n\
         00000001010138b060a751ac96384cd9327eb1b1e36a21fdb71114be07434c0cc7bf63f6e1da274edebfe76f65fb\
         d51ad2f14898b95b\n\
         example. 46 1 3600 003f00\n\
         example. 63 1 3600 00\n",
        "match",
    ),
    (
        "example.\n\
         00000001010138b060a751ac96384cd9327eb1b1e36a21fdb71114be07434c0cc7bf63f6e1da274edebfe76f65fb\
         d51ad2f14898b95b\n\
         a.example. 1 1 3600 c0000201\n",
        "mismatch",
    ),
    (
        "example.\n\
         00000000010138b060a751ac96384cd9327eb1b1e36a21fdb71114be07434c0cc7bf63f6e1da274edebfe76f65fb\
         d51ad2f14898b95b\n\
         example. 63 1 3600 00\n\
         example. 63 1 3600 01\n",
        "match",
    ),
    // which are those of the apex alone, in any case of its letters
    (
        "example.\n\
         0000000001019721e7edf806dd795002aac6aa0306c420bb44635487ebfe0e1db2d4be679ede64ae48c3724d6d4a\
         cdeefddb8f1c1cfb\n\
         a.example. 46 1 3600 003f00\n\
         a.example. 63 1 3600 00\n",
        "match",
    ),
    (
        "example.\n\
         00000000010138b060a751ac96384cd9327eb1b1e36a21fdb71114be07434c0cc7bf63f6e1da274edebfe76f65fb\
         d51ad2f14898b95b\n\
         a.example. 46 1 3600 003f00\n\
         a.example. 63 1 3600 00\n",
        "mismatch",
    ),
    (
        "example.\n\
         00000000010138b060a751ac96384cd9327eb1b1e36a21fdb71114be07434c0cc7bf63f6e1da274edebfe76f65fb\
         d51ad2f14898b95b\n\
         EXAMPLE. 46 1 3600 003f00\n\
         eXample. 63 1 3600 00\n",
        "match",
    ),
    (
        "EXAMPLE.\n\
         00000000010138b060a751ac96384cd9327eb1b1e36a21fdb71114be07434c0cc7bf63f6e1da274edebfe76f65fb\
         d51ad2f14898b95b\n\
         example. 46 1 3600 003f00\n\
         example. 63 1 3600 00\n",
        "match",
    ),
    // and no signature over another type, or that is cut
    (
        "example.\n\
         000000000101e244bcc2c91d58187deb689931c444c214a2acdc9ac6c44f25e592a1df756d4e470440b9287a35cd\
         63ede352bb62a3d6\n\
         example. 46 1 3600 003e00\n\
         example. 46 1 3600 013f\n",
        "match",
    ),
    (
        "example.\n\
         000000000101ccc746647922cd6bf561660ff3aee7f7187cf3bbc0b86ef346136d821106476539cd0c1527d8fa0d\
         502cb6334be4234a\n\
         example. 46 1 3600 00\n",
        "match",
    ),
    (
        "example.\n\
         00000000010138b060a751ac96384cd9327eb1b1e36a21fdb71114be07434c0cc7bf63f6e1da274edebfe76f65fb\
         d51ad2f14898b95b\n\
         example. 46 1 3600 00\n",
        "mismatch",
    ),
    // three records, by both algorithms
    (
        "example.\n\
         00000000010193ec90a335b3cb5ac4ac6b01876ef0e7620971ed5b181adaec5e8ad79a80c5ada50b0e039f2e2436\
         bf4303846ce43054\n\
         example. 1 1 0 c0000201\n\
         a.example. 1 1 3600 c0000201\n\
         b.example. 16 1 4294967295 0161\n",
        "match",
    ),
    (
        "example.\n\
         0000000001027fe080fb87d3fed0cfb2c66a7609fb14d448340fa4f62428679257461c85188a379370e21290411c\
         0a781fe33d4a954c5aa4ad1f4f8cf8146210ccb87f207fae\n\
         example. 1 1 0 c0000201\n\
         a.example. 1 1 3600 c0000201\n\
         b.example. 16 1 4294967295 0161\n",
        "match",
    ),
    (
        "EXAMPLE.\n\
         00000000010193ec90a335b3cb5ac4ac6b01876ef0e7620971ed5b181adaec5e8ad79a80c5ada50b0e039f2e2436\
         bf4303846ce43054\n\
         EXAMPLE. 1 1 0 c0000201\n\
         A.EXAMPLE. 1 1 3600 c0000201\n\
         B.EXAMPLE. 16 1 4294967295 0161\n",
        "match",
    ),
    // the serial has no part in it
    (
        "example.\n\
         7848b91c010193ec90a335b3cb5ac4ac6b01876ef0e7620971ed5b181adaec5e8ad79a80c5ada50b0e039f2e2436\
         bf4303846ce43054\n\
         example. 1 1 0 c0000201\n\
         a.example. 1 1 3600 c0000201\n\
         b.example. 16 1 4294967295 0161\n",
        "match",
    ),
    // a record counts once, whatever the later one's class, time to live and case
    (
        "example.\n\
         00000000010193ec90a335b3cb5ac4ac6b01876ef0e7620971ed5b181adaec5e8ad79a80c5ada50b0e039f2e2436\
         bf4303846ce43054\n\
         example. 1 1 0 c0000201\n\
         a.example. 1 1 3600 c0000201\n\
         A.example. 1 3 60 c0000201\n\
         b.example. 16 1 4294967295 0161\n",
        "match",
    ),
    (
        "example.\n\
         00000000010193ec90a335b3cb5ac4ac6b01876ef0e7620971ed5b181adaec5e8ad79a80c5ada50b0e039f2e2436\
         bf4303846ce43054\n\
         example. 1 1 0 c0000201\n\
         example. 1 1 0 c0000201\n\
         a.example. 1 1 3600 c0000201\n\
         a.example. 1 1 3600 c0000201\n\
         a.example. 1 1 3600 c0000201\n\
         b.example. 16 1 4294967295 0161\n",
        "match",
    ),
    // the first one counts
    (
        "example.\n\
         00000000010193ec90a335b3cb5ac4ac6b01876ef0e7620971ed5b181adaec5e8ad79a80c5ada50b0e039f2e2436\
         bf4303846ce43054\n\
         example. 1 1 0 c0000201\n\
         a.example. 1 1 60 c0000201\n\
         a.example. 1 1 3600 c0000201\n\
         b.example. 16 1 4294967295 0161\n",
        "mismatch",
    ),
    // another octet, time to live, class, type, owner, or record
    (
        "example.\n\
         00000000010193ec90a335b3cb5ac4ac6b01876ef0e7620971ed5b181adaec5e8ad79a80c5ada50b0e039f2e2436\
         bf4303846ce43054\n\
         example. 1 1 0 c0000201\n\
         a.example. 1 1 3600 c0000202\n\
         b.example. 16 1 4294967295 0161\n",
        "mismatch",
    ),
    (
        "example.\n\
         00000000010193ec90a335b3cb5ac4ac6b01876ef0e7620971ed5b181adaec5e8ad79a80c5ada50b0e039f2e2436\
         bf4303846ce43054\n\
         example. 1 1 0 c0000201\n\
         a.example. 1 1 3601 c0000201\n\
         b.example. 16 1 4294967295 0161\n",
        "mismatch",
    ),
    (
        "example.\n\
         00000000010193ec90a335b3cb5ac4ac6b01876ef0e7620971ed5b181adaec5e8ad79a80c5ada50b0e039f2e2436\
         bf4303846ce43054\n\
         example. 1 1 0 c0000201\n\
         a.example. 1 3 3600 c0000201\n\
         b.example. 16 1 4294967295 0161\n",
        "mismatch",
    ),
    (
        "example.\n\
         00000000010193ec90a335b3cb5ac4ac6b01876ef0e7620971ed5b181adaec5e8ad79a80c5ada50b0e039f2e2436\
         bf4303846ce43054\n\
         example. 1 1 0 c0000201\n\
         a.example. 2 1 3600 c0000201\n\
         b.example. 16 1 4294967295 0161\n",
        "mismatch",
    ),
    (
        "example.\n\
         00000000010193ec90a335b3cb5ac4ac6b01876ef0e7620971ed5b181adaec5e8ad79a80c5ada50b0e039f2e2436\
         bf4303846ce43054\n\
         example. 1 1 0 c0000201\n\
         aa.example. 1 1 3600 c0000201\n\
         b.example. 16 1 4294967295 0161\n",
        "mismatch",
    ),
    (
        "example.\n\
         00000000010193ec90a335b3cb5ac4ac6b01876ef0e7620971ed5b181adaec5e8ad79a80c5ada50b0e039f2e2436\
         bf4303846ce43054\n\
         example. 1 1 0 c0000201\n\
         a.example. 1 1 3600 c0000201\n",
        "mismatch",
    ),
    // a digest that is off in its first octet, or in its last
    (
        "example.\n\
         00000000010192ec90a335b3cb5ac4ac6b01876ef0e7620971ed5b181adaec5e8ad79a80c5ada50b0e039f2e2436\
         bf4303846ce43054\n\
         example. 1 1 0 c0000201\n\
         a.example. 1 1 3600 c0000201\n\
         b.example. 16 1 4294967295 0161\n",
        "mismatch",
    ),
    (
        "example.\n\
         00000000010193ec90a335b3cb5ac4ac6b01876ef0e7620971ed5b181adaec5e8ad79a80c5ada50b0e039f2e2436\
         bf4303846ce43055\n\
         example. 1 1 0 c0000201\n\
         a.example. 1 1 3600 c0000201\n\
         b.example. 16 1 4294967295 0161\n",
        "mismatch",
    ),
    // one that is cut, or longer, or the other algorithm's
    (
        "example.\n\
         00000000010193ec90a335b3cb5ac4ac6b01876ef0e7620971ed5b181adaec5e8ad79a80c5ada50b0e039f2e2436\
         bf4303846ce430\n\
         example. 1 1 0 c0000201\n\
         a.example. 1 1 3600 c0000201\n\
         b.example. 16 1 4294967295 0161\n",
        "mismatch",
    ),
    (
        "example.\n\
         00000000010193ec90a335b3cb5ac4ac6b01876ef0e7620971ed5b181adaec5e8ad79a80c5ada50b0e039f2e2436\
         bf4303846ce4305400\n\
         example. 1 1 0 c0000201\n\
         a.example. 1 1 3600 c0000201\n\
         b.example. 16 1 4294967295 0161\n",
        "mismatch",
    ),
    (
        "example.\n\
         0000000001017fe080fb87d3fed0cfb2c66a7609fb14d448340fa4f62428679257461c85188a379370e21290411c\
         0a781fe33d4a954c5aa4ad1f4f8cf8146210ccb87f207fae\n\
         example. 1 1 0 c0000201\n\
         a.example. 1 1 3600 c0000201\n\
         b.example. 16 1 4294967295 0161\n",
        "mismatch",
    ),
    // data without octets is left out of the line, or not
    (
        "example.\n\
         000000000101b6e63fa57ac2ccdb1357eb303b4387a525c100855143b2a6ba9cb377bae811441373d33bc6079fc7\
         6b31a6738fe47837\n\
         a.example. 10 1 0\n",
        "match",
    ),
    // another scheme, and algorithms but SHA-384 and SHA-512
    (
        "example.\n\
         00000001020138b060a751ac96384cd9327eb1b1e36a21fdb71114be07434c0cc7bf63f6e1da274edebfe76f65fb\
         d51ad2f14898b95b\n",
        "unsupported",
    ),
    (
        "example.\n\
         00000000000138b060a751ac96384cd9327eb1b1e36a21fdb71114be07434c0cc7bf63f6e1da274edebfe76f65fb\
         d51ad2f14898b95b\n",
        "unsupported",
    ),
    (
        "example.\n\
         00000000010038b060a751ac96384cd9327eb1b1e36a21fdb71114be07434c0cc7bf63f6e1da274edebfe76f65fb\
         d51ad2f14898b95b\n",
        "unsupported",
    ),
    (
        "example.\n\
         00000000010338b060a751ac96384cd9327eb1b1e36a21fdb71114be07434c0cc7bf63f6e1da274edebfe76f65fb\
         d51ad2f14898b95b\n",
        "unsupported",
    ),
    // names ascend by labels from the right, and lower case counts
    (
        ".\n\
         000000000101cf0bb1debc2c4ec83dc6bf942a4045f47344691e1a9573dffdb42ee842f16aa28a3cde084901c200\
         7b90e229fa29e116\n\
         . 2 1 0 00\n\
         b. 2 1 0 00\n\
         Z.b. 2 1 0 00\n\
         a.C. 2 1 0 00\n",
        "match",
    ),
    // types ascend, and then data by octets
    (
        "example.\n\
         000000000101e6730960e52de8dc8795e99e455349c1b20e48054586336e09d289ca39f1bb6155d6450a5620b4ef\
         794e4e5b4aa5671e\n\
         example. 1 1 0 00\n\
         example. 1 1 0 0000\n\
         example. 1 1 0 01\n\
         example. 2 1 0 00\n",
        "match",
    ),
];

#[test]
fn zones_are_checked(rt: HostRuntime) -> Result<(), Fail> {
    assert_eq!(rt; first_other(&rt, "zonemd", 0, &CHECKED)?, None);
    Ok(())
}

/// Inputs that are refused.
const NOT_CHECKED: [(&str, &str); 28] = [
    ("", "refused: bad line 1"),
    (
        "\n\
         00000000010138b060a751ac96384cd9327eb1b1e36a21fdb71114be07434c0cc7bf63f6e1da274edebfe76f65fb\
         d51ad2f14898b95b\n",
        "refused: bad line 1",
    ),
    (
        "a. b.\n\
         00000000010138b060a751ac96384cd9327eb1b1e36a21fdb71114be07434c0cc7bf63f6e1da274edebfe76f65fb\
         d51ad2f14898b95b\n",
        "refused: bad line 1",
    ),
    ("example.\n", "refused: bad line 2"),
    (
        "example.\n\
         \n",
        "refused: bad line 2",
    ),
    (
        "example.\n\
         0000000001\n",
        "refused: bad line 2",
    ),
    (
        "example.\n\
         00000000010138b060a751ac96384cd9327eb1b1e36a21fdb71114be07434c0cc7bf63f6e1da274edebfe76f65fb\
         d51ad2f14898b95\n",
        "refused: bad line 2",
    ),
    (
        "example.\n\
         00000001010100112233445566778899aa\n",
        "refused: bad line 2",
    ),
    (
        "example.\n\
         00000000010138b060a751ac96384cd9327eb1b1e36a21fdb71114be07434c0cc7bf63f6e1da274edebfe76f65fb\
         d51ad2f14898b95b\n\
         a.example. 1 1\n",
        "refused: bad line 3",
    ),
    (
        "example.\n\
         00000000010138b060a751ac96384cd9327eb1b1e36a21fdb71114be07434c0cc7bf63f6e1da274edebfe76f65fb\
         d51ad2f14898b95b\n\
         a.example. 1 1 0 00 00\n",
        "refused: bad line 3",
    ),
    (
        "example.\n\
         00000000010138b060a751ac96384cd9327eb1b1e36a21fdb71114be07434c0cc7bf63f6e1da274edebfe76f65fb\
         d51ad2f14898b95b\n\
         a.example. 65536 1 0 00\n",
        "refused: bad line 3",
    ),
    (
        "example.\n\
         00000000010138b060a751ac96384cd9327eb1b1e36a21fdb71114be07434c0cc7bf63f6e1da274edebfe76f65fb\
         d51ad2f14898b95b\n\
         a.example. 1 65536 0 00\n",
        "refused: bad line 3",
    ),
    (
        "example.\n\
         00000000010138b060a751ac96384cd9327eb1b1e36a21fdb71114be07434c0cc7bf63f6e1da274edebfe76f65fb\
         d51ad2f14898b95b\n\
         a.example. 1 1 4294967296 00\n",
        "refused: bad line 3",
    ),
    (
        "example.\n\
         00000000010138b060a751ac96384cd9327eb1b1e36a21fdb71114be07434c0cc7bf63f6e1da274edebfe76f65fb\
         d51ad2f14898b95b\n\
         a.example. 1 1 -1 00\n",
        "refused: bad line 3",
    ),
    (
        "example.\n\
         00000000010138b060a751ac96384cd9327eb1b1e36a21fdb71114be07434c0cc7bf63f6e1da274edebfe76f65fb\
         d51ad2f14898b95b\n\
         a.example. A 1 0 00\n",
        "refused: bad line 3",
    ),
    (
        "example.\n\
         00000000010138b060a751ac96384cd9327eb1b1e36a21fdb71114be07434c0cc7bf63f6e1da274edebfe76f65fb\
         d51ad2f14898b95b\n\
         a.example. 1 IN 0 00\n",
        "refused: bad line 3",
    ),
    (
        "example.\n\
         00000000010138b060a751ac96384cd9327eb1b1e36a21fdb71114be07434c0cc7bf63f6e1da274edebfe76f65fb\
         d51ad2f14898b95b\n\
         a.example. 1 1 0 0\n",
        "refused: bad line 3",
    ),
    (
        "example.\n\
         00000000010138b060a751ac96384cd9327eb1b1e36a21fdb71114be07434c0cc7bf63f6e1da274edebfe76f65fb\
         d51ad2f14898b95b\n\
         a.example. 1 1 0 0g\n",
        "refused: bad line 3",
    ),
    (
        "example.\n\
         00000000010138b060a751ac96384cd9327eb1b1e36a21fdb71114be07434c0cc7bf63f6e1da274edebfe76f65fb\
         d51ad2f14898b95b\n\
         @ 1 1 0 00\n",
        "refused: bad line 3",
    ),
    (
        "example.\n\
         00000000010138b060a751ac96384cd9327eb1b1e36a21fdb71114be07434c0cc7bf63f6e1da274edebfe76f65fb\
         d51ad2f14898b95b\n\
         (a.example. 1 1 0 00\n",
        "refused: bad line 3",
    ),
    (
        "example.\n\
         00000000010138b060a751ac96384cd9327eb1b1e36a21fdb71114be07434c0cc7bf63f6e1da274edebfe76f65fb\
         d51ad2f14898b95b\n\
         a.example. 1 1 0 00\n\
         \n",
        "refused: bad line 4",
    ),
    // a line is told before the order
    (
        "example.\n\
         00000000010138b060a751ac96384cd9327eb1b1e36a21fdb71114be07434c0cc7bf63f6e1da274edebfe76f65fb\
         d51ad2f14898b95b\n\
         b.example. 1 1 0 00\n\
         a.example. 1 1 0 00\n\
         x\n",
        "refused: bad line 5",
    ),
    // owners, types and data that fall
    (
        "example.\n\
         00000001010138b060a751ac96384cd9327eb1b1e36a21fdb71114be07434c0cc7bf63f6e1da274edebfe76f65fb\
         d51ad2f14898b95b\n\
         b.example. 1 1 0 00\n\
         a.example. 1 1 0 00\n",
        "refused: records not ascending",
    ),
    (
        "example.\n\
         00000000010138b060a751ac96384cd9327eb1b1e36a21fdb71114be07434c0cc7bf63f6e1da274edebfe76f65fb\
         d51ad2f14898b95b\n\
         a.example. 2 1 0 00\n\
         a.example. 1 1 0 00\n",
        "refused: records not ascending",
    ),
    (
        "example.\n\
         00000000010138b060a751ac96384cd9327eb1b1e36a21fdb71114be07434c0cc7bf63f6e1da274edebfe76f65fb\
         d51ad2f14898b95b\n\
         a.example. 1 1 0 01\n\
         a.example. 1 1 0 00\n",
        "refused: records not ascending",
    ),
    (
        "example.\n\
         00000000010138b060a751ac96384cd9327eb1b1e36a21fdb71114be07434c0cc7bf63f6e1da274edebfe76f65fb\
         d51ad2f14898b95b\n\
         a.example. 1 1 0 0000\n\
         a.example. 1 1 0 00\n",
        "refused: records not ascending",
    ),
    (
        "example.\n\
         00000000010138b060a751ac96384cd9327eb1b1e36a21fdb71114be07434c0cc7bf63f6e1da274edebfe76f65fb\
         d51ad2f14898b95b\n\
         a.b. 1 1 0 00\n\
         z.A. 1 1 0 00\n",
        "refused: records not ascending",
    ),
    // also under a scheme that isn't known
    (
        "example.\n\
         00000000020138b060a751ac96384cd9327eb1b1e36a21fdb71114be07434c0cc7bf63f6e1da274edebfe76f65fb\
         d51ad2f14898b95b\n\
         b. 1 1 0 00\n\
         a. 1 1 0 00\n",
        "refused: records not ascending",
    ),
];

#[test]
fn other_inputs_are_refused(rt: HostRuntime) -> Result<(), Fail> {
    assert_eq!(rt; first_other(&rt, "zonemd", 2, &NOT_CHECKED)?, None);
    Ok(())
}
