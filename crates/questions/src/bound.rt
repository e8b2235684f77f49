ghost use Rattle.questions.specs.Outcomes.{is_star};
ghost use Rattle.std.specs.Option.{option_map};
ghost use Rattle.std.specs.Prelude.{◌≡◌, if◌then◌else◌, Some, None};

// The bound that a text writes: absent where it is a star, else what was read of it, if it was.
pub fn bound_of<T: Copy>(text: &[u8], read: Option<T>) -> Option<Option<T>>
    ensures { result ≡ (if is_star text.now then Some None else option_map Some read) }
{
    match text {
        [b'*'] => Some(None),
        _ => read.map(Some),
    }
}
