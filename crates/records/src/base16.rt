//! Base 16 in upper case.
ghost use Rattle.std.specs.Prelude.{◌≡◌, ◌≤◌, [], length, Ok, Err, MatchResult};
ghost use Rattle.records.specs.Texts.{hex_digit, base16};

use arrayvec::ArrayVec;
use faults::Base16Fault;

// The value of a digit.
fn hex_digit(octet: u8) -> Option<u8>
    ensures { result ≡ hex_digit octet }
{
    match octet {
        b'0'..=b'9' => Some(octet - b'0'),
        b'A'..=b'F' => Some(octet - b'A' + 10),
        _ => None,
    }
}

// Puts the octets that pairs of digits stand for into a vector with none, which the caller makes: to hand it out would copy it.
#[tactic(auto, using(crate::proofs::Steps::pair_read))]
pub(crate) fn decode(text: &[u8], octets: &mut ArrayVec<u8, 128>) -> Result<(), Base16Fault>
    requires fits { length text.now ≤ 256 }
    requires none { octets.old.items ≡ [] }
    ensures { MatchResult result (λ _. base16 0 [] text.now ≡ Ok octets.new.items) (λ f. base16 0 [] text.now ≡ Err f) }
{
    let (pairs, rest) = text.as_chunks::<2>();
    for (i, [high, low]) in pairs.iter().enumerate() {
        let upper = hex_digit(*high).ok_or(Base16Fault { octet: 2 * i })?;
        let lower = hex_digit(*low).ok_or(Base16Fault { octet: 2 * i + 1 })?;
        octets.push(upper * 16 + lower);
    }
    if !rest.is_empty() {
        return Err(Base16Fault {
            octet: 2 * pairs.len(),
        });
    }
    Ok(())
}
