// Whether an update is the next of a chart.
ghost use Rattle.std.specs.Prelude.{◌≡◌, ◌≤◌, ◌<◌, ◌^◌, IfSome, length};
ghost use Rattle.iso8211_codec.specs.Digits.{number};
ghost use Rattle.update_apply.specs.Applied.{is_next, update_number};

use chart_model::Header;
use update_reader::Issue;

/// The number that at most nine digits write.
fn number(text: &[u8]) -> Option<usize>
    requires { length text.now ≤ 9 }
    ensures value { result ≡ number text.now }
    ensures bound { IfSome result (λ n. n < 10 ^ length text.now) }
    ensures short { IfSome result (λ n. n < 1000000000) }
{
    let mut n: usize = 0;
    for byte in text {
        if !byte.is_ascii_digit() {
            return None;
        }
        n = 10 * n + (*byte - b'0') as usize;
    }
    Some(n)
}

/// The number of an update (UPDN): that of one to nine digits.
fn update_number(text: &[u8]) -> Option<usize>
    ensures value { result ≡ update_number text.now }
    ensures short { IfSome result (λ n. n < 1000000000) }
{
    if text.is_empty() || text.len() > 9 {
        return None;
    }
    number(text)
}

/// Whether an update is of the chart's edition, by the same bytes of EDTN, and has the number after that of the chart.
pub(crate) fn is_next(header: &Header, issue: &Issue) -> bool
    ensures { result ≡ is_next header.now issue.now }
{
    if issue.edtn.as_slice() != header.edtn.as_slice() {
        return false;
    }
    match (
        update_number(header.updn.as_slice()),
        update_number(issue.updn.as_slice()),
    ) {
        (Some(old), Some(new)) => new == old + 1,
        _ => false,
    }
}
