ghost use Rattle.crate_answers.specs.Answers.{is_same};
ghost use Rattle.std.specs.Prelude.{◌≡◌, IfOk};

use crate::admitting::is_same_admission;
use crate::folding::is_same_fold;
use crate::printing::are_same_lines;
use notation::split_once;
use std::alloc::{AllocError, Global};

// Whether the answer that a line has behind its equals sign is this repository's too.
pub(crate) fn is_same(heap: Global, line: &[u8]) -> Result<bool, AllocError>
    ensures { IfOk result (λ b. b ≡ is_same line.now) }
{
    let Some((word, rest)) = split_once(line, b' ') else {
        return Ok(false);
    };
    let Some((question, answer)) = split_once(rest, b'=') else {
        return Ok(false);
    };
    match word {
        b"lines" => are_same_lines(heap, question, answer),
        b"fold" => is_same_fold(heap, question, answer),
        b"admit" => is_same_admission(heap, question, answer),
        _ => Ok(false),
    }
}
