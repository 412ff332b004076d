// The invoice number that a payment's remark names.
#![tactic(auto)]

ghost use Rattle.std.specs.Prelude.{◌≡◌, ◌≤◌, length};
ghost use Rattle.foundation.specs.Counting.{first};
ghost use Rattle.remarks.specs.Digits.{most_of};
ghost use Rattle.remarks.specs.Remarks.{is_mark, is_marked, read_number, named, NamedAnswer};

mod digits;

pub use digits::Digits;

// A longer remark names none.
const LONGEST: usize = 64;

// The number that the text begins with, if it has at most so many digits.
fn read_number(text: &[u8], digits: Digits) -> Option<u32>
    ensures { result ≡ read_number (most_of digits) text.now }
{
    let most = digits.most();
    let mut number: u32 = 0;
    for (i, byte) in text.iter().enumerate() {
        if !byte.is_ascii_digit() {
            return Some(number);
        }
        if i == most {
            return None;
        }
        number = number * 10 + u32::from(*byte - b'0');
    }
    Some(number)
}

// Whether the text begins with INV and then a digit.
fn is_mark(text: &[u8]) -> bool
    ensures { result ≡ is_mark text.now }
{
    match text {
        [b'I', b'N', b'V', digit, ..] => digit.is_ascii_digit(),
        _ => false,
    }
}

// The first place where a number is marked.
fn marked_place(remark: &[u8]) -> Option<usize>
    ensures { result ≡ first (is_marked remark.now) (length remark.now) }
{
    (0..remark.len()).find(|place| is_mark(&remark[*place..]))
}

// The number at the first place where INV stands directly before a digit.
pub fn invoice_number(remark: &[u8], digits: Digits) -> Option<u32>
    ensures rule { result ≡ named (most_of digits) remark.now }
    ensures law { NamedAnswer (most_of digits) remark.now result }
{
    if remark.len() > LONGEST {
        return None;
    }
    let place = marked_place(remark)?;
    read_number(&remark[place + 3..], digits)
}
