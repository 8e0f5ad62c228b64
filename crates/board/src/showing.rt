// Showing a reader's record: a part of the area, or the caller's default. Nothing is copied.
ghost use Rattle.std.specs.Prelude.{◌≡◌};
ghost use Rattle.register.specs.Calls.{is_own, shown};

// Whether what is shown is the reader's own record.
#[tactic(auto, using(place::proofs::Placed::ranges_are_shown))]
pub fn is_own(area: &[u64], reader: u64) -> bool
    ensures { result ≡ is_own area.now reader }
{
    place::record_range(area, reader).is_some()
}

// The reader's record or the default, both lent for as long as the result.
#[tactic(auto, using(place::proofs::Placed::ranges_are_shown))]
pub fn show_one<'r>(area: &'r [u64], reader: u64, default: &'r [u64]) -> &'r [u64]
    ensures { result.now ≡ shown area.now reader default.now }
{
    match place::record_range(area, reader) {
        Some(range) => &area[range],
        None => default,
    }
}

// The reader's record or the caller's default, each lent for its own time, which the result's does not outlast.
pub fn show<'a: 'r, 'b: 'r, 'r>(area: &'a [u64], reader: u64, default: &'b [u64]) -> &'r [u64]
    ensures { result.now ≡ shown area.now reader default.now }
{
    // Named anew: handed on as they stand, two lifetimes have no proof.
    let shown: &'r [u64] = area;
    let otherwise: &'r [u64] = default;
    show_one(shown, reader, otherwise)
}
