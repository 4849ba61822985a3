//! The report of record data that was rebuilt.
ghost use Rattle.std.specs.Prelude.{◌≡◌, ◌++◌, string_bytes, IfOk};
ghost use Rattle.hex.specs.Hex.{encode_lower};
ghost use Rattle.input_lines.specs.Report.{line};
ghost use Rattle.edit_program.specs.Report.{reply_text, reply_lines};

use std::alloc::Global;
use svcb_rdata::{Rebuilt, Reply};
use wire_base::NoMemory;
use wire_records::Base16;

/// How many octets the longest line of a reply has.
const LONGEST_REPLY: usize = "duplicate key\n".len();

/// The line of a reply.
fn reply_line(reply: Reply) -> &'static str
    ensures { result.now ≡ line (reply_text reply) }
{
    match reply {
        Reply::Accepted => "accepted\n",
        Reply::DuplicateKey => "duplicate key\n",
        Reply::ShortBuf => "short buffer\n",
    }
}

/// Adds the lines of replies.
fn push_replies(report: &mut String, replies: &[Reply]) -> Result<(), NoMemory>
    ensures { IfOk result (λ _. string_bytes report.new
        ≡ string_bytes report.old ++ reply_lines replies.now) }
{
    for reply in replies {
        report.push_str(reply_line(*reply))?;
    }
    Ok(())
}

/// The report of record data that was rebuilt. Fails only with `NoMemory`.
pub fn done_report(alloc: Global, rebuilt: &Rebuilt) -> Result<String, NoMemory>
    ensures { IfOk result (λ report. string_bytes report
        ≡ reply_lines rebuilt.now.replies ++ line (encode_lower rebuilt.now.octets)) }
{
    let replies = rebuilt.replies.as_slice();
    let octets = rebuilt.octets.as_slice();
    let room = replies
        .len()
        .saturating_mul(LONGEST_REPLY)
        .saturating_add(octets.len().saturating_mul(2))
        .saturating_add(1);
    let mut report = String::with_capacity(alloc, room)?;
    push_replies(&mut report, replies)?;
    let digits = Base16 {
        octets,
        is_upper: false,
    };
    writeln!(report, "{digits}")?;
    Ok(report)
}
