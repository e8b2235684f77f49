ghost use Rattle.std.specs.Prelude.{codes};
ghost use Rattle.std.specs.Str.{bytes_eq};

use amounts::AmountLeaf;
use divisors::Fraction;
use hex_text::read_hex;
use leaf::{Fault, Leaf, Refusal};
use notation::divisors;
use replays::{Replay, replay_all};
use sheets::print_sheet;
use std::alloc::AllocError;
use std::test::Fail;
use texts::{append_line, append_lines};

// Up to 4 by 2, then a leaf whose minimum is above its maximum.
const SHEET: [u8; 11] = [0x41, 2, 4, 1, 2, 1, 0, 3, 9, 4, 0];

#[test]
fn hexadecimal(rt: HostRuntime) -> Result<(), Fail> {
    let bytes = read_hex(rt.alloc(), b"41 02ff")?.ok_or("no bytes")?;
    assert_eq!(rt; bytes.as_slice(), [0x41, 2, 0xff].as_slice());
    Ok(())
}

#[test]
fn lists_of_divisors(rt: HostRuntime) -> Result<(), Fail> {
    let list = divisors(rt.alloc(), b"25/2,10")?.ok_or("no list")?;
    let ten = Fraction { p: 10, q: 1 };
    assert_eq!(rt; list.as_slice(), [Fraction { p: 25, q: 2 }, ten].as_slice());
    Ok(())
}

#[test]
fn lines_behind_a_text(rt: HostRuntime) -> Result<(), Fail> {
    let mut text = Vec::new(rt.alloc());
    append_line(&mut text, &Fault::at(Refusal::TableFull, 7))?;
    append_lines(&mut text, &[AmountLeaf::blank(); 2])?;
    assert_eq!(rt;
        text.as_slice(),
        b"refused 10 at 7\n* * - -\n* * - -\n".as_slice()
    );
    Ok(())
}

#[test]
fn sheets_as_text(rt: HostRuntime) -> Result<(), Fail> {
    let printed = print_sheet(rt.alloc(), &SHEET)?;
    assert_eq!(rt;
        printed.text.as_slice(),
        b"* 4 2 -\nrefused 2 at 11\n".as_slice()
    );
    Ok(())
}

// A line that says that it is right.
#[derive(Clone, Copy)]
struct Right;

impl Replay for Right {
    ghost holds = { λ case. bytes_eq case (codes "right") };

    fn holds(&self, case: &[u8]) -> Result<bool, AllocError> {
        Ok(case == b"right".as_slice())
    }
}

#[test]
fn lines_replayed(rt: HostRuntime) -> Result<(), Fail> {
    let mut out = Vec::new(rt.alloc());
    let same = replay_all(&Right, b"# two lines\nright\nwrong\n", &mut out)?;
    assert!(rt; !same);
    assert_eq!(rt;
        out.as_slice(),
        b"line 3: different\nreplayed 2, different 1\n".as_slice()
    );
    Ok(())
}
