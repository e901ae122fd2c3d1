// The calls of a store in memory that are to fail.
ghost use Rattle.std.specs.Prelude.{◌≡◌};
ghost use Rattle.std.specs.Option.{option_map};
ghost use Rattle.store_ends.specs.Past.{failing_call, made, is_done};

/// What a call that fails leaves: the file as it was, the file as the call makes it, or these bytes. Only a `put` can leave
/// other bytes: in `replace` and `remove` `Torn` counts as `Old`.
#[derive(Debug, PartialEq, Eq, Drop)]
pub enum Left {
    Old,
    New,
    Torn(Vec<u8>),
}

/// A call that is to fail, by its number, counted from 1, and what it leaves.
#[derive(Debug, PartialEq, Eq, Drop)]
pub struct StoreFail {
    pub call: u64,
    pub left: Left,
}

/// What is to be left at the call of this number, if it is to fail.
pub(crate) fn fail_at(fails: &[StoreFail], call: u64) -> Option<&Left>
    ensures { option_map (λ left. left.now) result ≡ failing_call fails.now call }
{
    for fail in fails {
        if fail.call == call {
            return Some(&fail.left);
        }
    }
    None
}

/// What a call makes of its file where it is told to fail so, and whether it does.
pub(crate) fn outcome<'a>(
    torn: bool,
    left: Option<&'a Left>,
    state: Option<&'a [u8]>,
) -> (Option<&'a [u8]>, bool)
    ensures made { option_map (λ bytes. bytes.now) result.0 ≡ made torn (option_map (λ l. l.now) left.entry) (option_map (λ bytes. bytes.now) state.entry) }
    ensures is_done { result.1 ≡ is_done torn (option_map (λ l. l.now) left.entry) }
{
    match left {
        Some(Left::Torn(bytes)) if torn => (Some(bytes), true),
        Some(Left::Old | Left::Torn(_)) => (state, false),
        Some(Left::New) | None => (state, true),
    }
}
