ghost use Rattle.sheets.specs.Rest.{RestsGoOn, rest_sheet};
ghost use Rattle.std.specs.Prelude.{◌≡◌, length};
ghost use Rattle.texts.specs.Text.{fitting, over};

use leaf::rest_of;
use texts::put_bytes;

/// Writes the sheet that goes on from the byte `start` of another, as an answer names it: the byte of the kind, then the leaves from
/// `start` on. It stands at the front of `out`, as far as there is room; the answer is how many bytes it has.
///
/// A sheet that found the table full so goes on in a new table.
#[tactic(auto, using(crate::proofs::GoingOn::rests_go_on))]
pub fn put_rest(out: &mut [u8], sheet: &[u8], start: usize) -> usize
    ensures length { result ≡ length (rest_sheet start sheet.now) }
    ensures text { out.new ≡ over out.old 0 (fitting out.old 0 (rest_sheet start sheet.now)) }
    ensures goes_on { RestsGoOn }
{
    let kind = &sheet[..start.min(sheet.len()).min(1)];
    let leaves = rest_of(sheet, start);
    let end = put_bytes(out, 0, kind);
    put_bytes(out, end, leaves);
    kind.len() + leaves.len()
}
