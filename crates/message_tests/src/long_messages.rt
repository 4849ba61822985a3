//! Messages at the limits: owners of 255 and of 256 octets, and 65,535 octets, of questions without a name and of
//! pointers.

use crate::faults::are_entered;
use dns_message::Message;
use std::alloc::Global;
use std::test::Fail;
use wire_base::{NoMemory, ParseError};

/// A question whose name has three labels of 63 octets, and a record whose owner is a label of so many octets in front
/// of a pointer to that name. With its lengths and the root, the owner has 194 octets more.
fn long_owner(alloc: Global, len: u8) -> Result<Vec<u8>, NoMemory> {
    let mut message = Vec::from_slice(alloc, b"\x00\x00\x00\x00\x00\x01\x00\x01\x00\x00\x00\x00")?;
    for _ in 0..3 {
        message.push(63)?;
        message.extend_from_slice(&[b'a'; 63])?;
    }
    message.extend_from_slice(b"\x00\x00\x01\x00\x01")?;
    message.push(len)?;
    message.extend_from_slice(&vec![in alloc; b'a'; usize::from(len)]?)?;
    message.extend_from_slice(b"\xc0\x0c\x00\x01\x00\x01\x00\x00\x00\x00\x00\x00")?;
    Ok(message)
}

#[test]
fn owners_have_255_octets_at_most(rt: HostRuntime) -> Result<(), Fail> {
    for (len, wanted) in [(61, (1, None)), (62, (0, Some(ParseError::Form)))] {
        let octets = long_owner(rt.alloc(), len)?;
        let records = Message::from_octets(&octets)?.answers()?;
        assert!(rt; are_entered(records, wanted), "{len}");
    }
    Ok(())
}

/// The questions of a message of 65,535 octets that counts as many: each has five octets, so 13,104 are whole.
#[test]
fn questions_end_with_the_message(rt: HostRuntime) -> Result<(), Fail> {
    let mut octets = vec![in rt.alloc(); 0; 65535]?;
    octets[4] = 255;
    octets[5] = 255;
    let questions = Message::from_octets(&octets)?.questions();
    assert!(rt; are_entered(questions, (13104, Some(ParseError::ShortInput))));
    Ok(())
}

/// A message of 65,535 octets that counts as many questions. Behind its header there are pointers alone: the first
/// points to the octet 0 at the message's start, which is the root, and each other one to the pointer in front of it,
/// as far as pointers reach.
fn chain_of_pointers(alloc: Global) -> Result<Vec<u8>, NoMemory> {
    let header = b"\x00\x00\x00\x00\xff\xff\x00\x00\x00\x00\x00\x00\xc0\x00";
    let mut message = Vec::from_slice(alloc, header)?;
    for index in 0..32760u16 {
        let target = (12 + 2 * index).min(0x3fff);
        message.extend_from_slice(&(0xc000 + target).to_be_bytes())?;
    }
    message.push(0xc0)?;
    Ok(message)
}

/// A question is a name and four octets, which are two pointers here: the first question's name has one pointer, the
/// next one's four, and the 85th's 253. The 86th's has 256, of which 255 may be followed.
#[test]
fn pointers_of_questions_end(rt: HostRuntime) -> Result<(), Fail> {
    let octets = chain_of_pointers(rt.alloc())?;
    assert_eq!(rt; octets.len(), 65535);
    let message = Message::from_octets(&octets)?;
    assert!(rt; are_entered(message.questions(), (85, Some(ParseError::Form))));
    assert_eq!(rt; message.trailing().err(), Some(ParseError::Form));
    Ok(())
}

/// Pointers alone, the header too: each points to the place 12, and so the first question to itself.
#[test]
fn a_message_of_pointers_has_no_question(rt: HostRuntime) -> Result<(), Fail> {
    let octets = b"\xc0\x0c".repeat(rt.alloc(), 32767)?;
    let message = Message::from_octets(&octets)?;
    assert_eq!(rt; message.header().qdcount, 0xc00c);
    assert!(rt; are_entered(message.questions(), (0, Some(ParseError::Form))));
    Ok(())
}
