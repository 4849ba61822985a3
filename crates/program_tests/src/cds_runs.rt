//! Runs of `cds` over devices in memory. The digests that no RFC has were made by Python's hashlib.
use crate::runs::first_other;
use std::test::Fail;

/// Inputs, each with what is written, without its last LF.
const COMPARED: [(&str, &str); 30] = [
    // nothing on either side
    ("example.\n", "agree"),
    (
        "example.\n\
         cdnskey 000a0b056b6579\n",
        "cdnskey 1 without cds",
    ),
    (
        "example.\n\
         cds ef74050200\n\
         cdnskey 000a0b056b6579\n",
        "cds 1 without cdnskey",
    ),
    // RFC 4509, section 2.3
    (
        "dskey.example.com.\n\
         cds ec450502d4b7d520e7bb5f0f67674a0cceb1e3e0614b93c4f9e99b8383f6a1e4469da50a\n\
         cdnskey 0100030501039e8a247418e318903b215a848acfd5f37f026bd4062db26c774c690968d5d56df8bfda91\
         e6f36d9a279888f41333357c5e6029990d10fdf5663062a512763326980a615ddbf17a05ddfcce7e5fb3abcca05a\
         31b0957452d4521e83870789063115bf97f6c308ccf57cdc9ce7fe10f6ed1bd0cc0660038c50dcdb0feb963c2f17\
         \n",
        "agree",
    ),
    // RFC 6605, section 6.2
    (
        "example.net.\n\
         cdnskey 0101030ec4a61a36159d18e7c9fa73eb2fcfdaae4c1fd8463730327e484aca8af0554ae9b5c3f7a0b17b\
         d2003b4d261c9e9b94423a9810e8af17d43452124adb610f8e07ebfcfee5f8e4d07063cae9eb917a1a5babf08fe6\
         95536017a5bfa93237ee6e34\n\
         cds 2a130e0472d7b62976ce06438e9c0bf319013cf801f09ecc84b8d7e9495f27e305c6a9b0563a9b5f4d288405\
         c3008a946df983d6\n",
        "agree",
    ),
    // SHA-256 and SHA-384 of one key, and of two
    (
        "example.\n\
         cds ef740502a4171459f7230053cf3cebd5ac14b661a0ec7b9125a0cbde9cb9ba500b4c40e9\n\
         cds ef740504b2b9c858173779b6dec9436353ca83b1f800130aa0286618c1522e89bdd702030cd205d77d640980\
         6ac46b0fb7ba8a06\n\
         cdnskey 000a0b056b6579\n",
        "agree",
    ),
    (
        "example.\n\
         cds ef740502a4171459f7230053cf3cebd5ac14b661a0ec7b9125a0cbde9cb9ba500b4c40e9\n\
         cdnskey 000a0b056b6579\n\
         cdnskey 0101030d0011223300112233001122330011223300112233001122330011223300112233001122330011\
         2233001122330011223300112233001122330011223300112233\n\
         cds 28500d0449a611b48e6fd8e9ee120bfb93e025898cfbfd3b3b313752524cb378a24e19ee3c96d84007c1bc29\
         a1ade69b6f7b5482\n",
        "agree",
    ),
    (
        "example.\n\
         cds ef740502a4171459f7230053cf3cebd5ac14b661a0ec7b9125a0cbde9cb9ba500b4c40e9\n\
         cdnskey 000a0b056b6579\n\
         cdnskey 0101030d0011223300112233001122330011223300112233001122330011223300112233001122330011\
         2233001122330011223300112233001122330011223300112233\n",
        "cdnskey 2 without cds",
    ),
    (
        "example.\n\
         cds ef740502a4171459f7230053cf3cebd5ac14b661a0ec7b9125a0cbde9cb9ba500b4c40e9\n\
         cds 28500d0449a611b48e6fd8e9ee120bfb93e025898cfbfd3b3b313752524cb378a24e19ee3c96d84007c1bc29\
         a1ade69b6f7b5482\n\
         cdnskey 000a0b056b6579\n",
        "cds 2 without cdnskey",
    ),
    // letters of the owner are put in lower case
    (
        "EXAMPLE.\n\
         cds ef740502a4171459f7230053cf3cebd5ac14b661a0ec7b9125a0cbde9cb9ba500b4c40e9\n\
         cdnskey 000a0b056b6579\n",
        "agree",
    ),
    (
        "example.com.\n\
         cds ef740502a4171459f7230053cf3cebd5ac14b661a0ec7b9125a0cbde9cb9ba500b4c40e9\n\
         cdnskey 000a0b056b6579\n",
        "cds 1 without cdnskey",
    ),
    // algorithm 1 matches nothing
    (
        "example.\n\
         cds 7a9a01028c06c107f6c921eb92f2c0852971d892dc2363015858c0c80fc5376682f91d45\n\
         cdnskey 00000301aabbccdd\n",
        "cds 1 without cdnskey",
    ),
    (
        "example.\n\
         cdnskey 00000301aabbccdd\n",
        "cdnskey 1 without cds",
    ),
    // nor do digests but of types 2 and 4
    (
        "example.\n\
         cds ef740500a4171459f7230053cf3cebd5ac14b661a0ec7b9125a0cbde9cb9ba500b4c40e9\n\
         cdnskey 000a0b056b6579\n",
        "cds 1 without cdnskey",
    ),
    (
        "example.\n\
         cds ef7405011b3a1c8ff7cb1e1d5379ca82988ea6382784bd78\n\
         cdnskey 000a0b056b6579\n",
        "cds 1 without cdnskey",
    ),
    (
        "example.\n\
         cds ef740503a4171459f7230053cf3cebd5ac14b661a0ec7b9125a0cbde9cb9ba500b4c40e9\n\
         cdnskey 000a0b056b6579\n",
        "cds 1 without cdnskey",
    ),
    // a signal to delete has no meaning of its own
    (
        "example.\n\
         cds 0000000000\n\
         cdnskey 0000030000\n",
        "cds 1 without cdnskey",
    ),
    (
        "example.\n\
         cdnskey 0000030000\n",
        "cdnskey 1 without cds",
    ),
    // the tag is right, and the digest is one bit off at either end, cut, or longer
    (
        "example.\n\
         cds ef740502a4171459f7230053cf3cebd5ac14b661a0ec7b9125a0cbde9cb9ba500b4c40e8\n\
         cdnskey 000a0b056b6579\n",
        "cds 1 without cdnskey",
    ),
    (
        "example.\n\
         cds ef74050224171459f7230053cf3cebd5ac14b661a0ec7b9125a0cbde9cb9ba500b4c40e9\n\
         cdnskey 000a0b056b6579\n",
        "cds 1 without cdnskey",
    ),
    (
        "example.\n\
         cds ef740502a4171459f7230053cf3cebd5ac14b661a0ec7b9125a0cbde9cb9ba500b4c40\n\
         cdnskey 000a0b056b6579\n",
        "cds 1 without cdnskey",
    ),
    (
        "example.\n\
         cds ef740502a4171459f7230053cf3cebd5ac14b661a0ec7b9125a0cbde9cb9ba500b4c40e900\n\
         cdnskey 000a0b056b6579\n",
        "cds 1 without cdnskey",
    ),
    (
        "example.\n\
         cds ef740502a4\n\
         cdnskey 000a0b056b6579\n",
        "cds 1 without cdnskey",
    ),
    // another tag, and another algorithm
    (
        "example.\n\
         cds ef750502a4171459f7230053cf3cebd5ac14b661a0ec7b9125a0cbde9cb9ba500b4c40e9\n\
         cdnskey 000a0b056b6579\n",
        "cds 1 without cdnskey",
    ),
    (
        "example.\n\
         cds ef740802a4171459f7230053cf3cebd5ac14b661a0ec7b9125a0cbde9cb9ba500b4c40e9\n\
         cdnskey 000a0b056b6579\n",
        "cds 1 without cdnskey",
    ),
    // SHA-256 under the number of SHA-384
    (
        "example.\n\
         cds ef740504a4171459f7230053cf3cebd5ac14b661a0ec7b9125a0cbde9cb9ba500b4c40e9\n\
         cdnskey 000a0b056b6579\n",
        "cds 1 without cdnskey",
    ),
    // the same twice
    (
        "example.\n\
         cds ef740502a4171459f7230053cf3cebd5ac14b661a0ec7b9125a0cbde9cb9ba500b4c40e9\n\
         cds ef740502a4171459f7230053cf3cebd5ac14b661a0ec7b9125a0cbde9cb9ba500b4c40e9\n\
         cdnskey 000a0b056b6579\n\
         cdnskey 000a0b056b6579\n",
        "agree",
    ),
    // the CDS is named before the key
    (
        "example.\n\
         cds ef74050200\n\
         cdnskey 0101030d0011223300112233001122330011223300112233001122330011223300112233001122330011\
         2233001122330011223300112233001122330011223300112233\n\
         cds ef740502a4171459f7230053cf3cebd5ac14b661a0ec7b9125a0cbde9cb9ba500b4c40e9\n\
         cdnskey 000a0b056b6579\n",
        "cds 1 without cdnskey",
    ),
    (
        "example.\n\
         cds ef740502a4171459f7230053cf3cebd5ac14b661a0ec7b9125a0cbde9cb9ba500b4c40e9\n\
         cdnskey 000a0b056b6579\n\
         cds ef74050200\n\
         cdnskey 0101030d0011223300112233001122330011223300112233001122330011223300112233001122330011\
         2233001122330011223300112233001122330011223300112233\n",
        "cds 2 without cdnskey",
    ),
    // digits of either case
    (
        "example.\n\
         cds EF740502A4171459F7230053CF3CEBD5AC14B661A0EC7B9125A0CBDE9CB9BA500B4C40E9\n\
         cdnskey 000A0B056B6579\n",
        "agree",
    ),
];

#[test]
fn cds_are_compared(rt: HostRuntime) -> Result<(), Fail> {
    assert_eq!(rt; first_other(&rt, "cds", 0, &COMPARED)?, None);
    Ok(())
}

/// Inputs that are refused.
const NOT_COMPARED: [(&str, &str); 12] = [
    ("", "refused: bad line 1"),
    ("a. b.\n", "refused: bad line 1"),
    (
        "example.\n\
         cds 00\n",
        "refused: bad line 2",
    ),
    (
        "example.\n\
         cdnskey 000003\n",
        "refused: bad line 2",
    ),
    (
        "example.\n\
         cds\n",
        "refused: bad line 2",
    ),
    (
        "example.\n\
         cds000a0b056b6579\n",
        "refused: bad line 2",
    ),
    (
        "example.\n\
         cds  000a0b056b6579\n",
        "refused: bad line 2",
    ),
    (
        "example.\n\
         CDS 000a0b056b6579\n",
        "refused: bad line 2",
    ),
    (
        "example.\n\
         ds 000a0b056b6579\n",
        "refused: bad line 2",
    ),
    (
        "example.\n\
         cdnskey 000a0b056b6579\n\
         cdnskey 000a0b056b6579 \n",
        "refused: bad line 3",
    ),
    (
        "example.\n\
         cdnskey 000a0b056b6579\n\
         cds ef7405020\n",
        "refused: bad line 3",
    ),
    (
        "example.\n\
         \n\
         cds x\n",
        "refused: bad line 2",
    ),
];

#[test]
fn other_inputs_are_refused(rt: HostRuntime) -> Result<(), Fail> {
    assert_eq!(rt; first_other(&rt, "cds", 2, &NOT_COMPARED)?, None);
    Ok(())
}
