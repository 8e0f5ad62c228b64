// The shapes that there are areas of, and their layouts; the layout that an area's header names.
ghost use Rattle.std.specs.Prelude.{true, ◌&&◌, ◌≡◌};
ghost use Rattle.register.specs.Shape.{shape, known_form, in_range};
ghost use Rattle.register.specs.Area.{shape_of, is_area};
ghost use Rattle.area.specs.Words.{laid, layout_of};

use crate::Layout;

// The form stays a number: C hands any, and 9 answers it. Form, N and C stay three numbers, as C hands them and as
// document 01 makes a layout of them; a form, N and C that are taken are a `Layout`.

// Whether a form is known, which 1 is, N is 1 to 64 and C is 1 to 256: joined by `&`, as the tests of an area are.
pub fn known(form: u64, n: u64, c: u64) -> bool
    ensures { result ≡ known_form form && in_range (shape form n c) }
{
    (form == 1) & ((1 <= n) & (n <= 64) & (1 <= c) & (c <= 256))
}

// The layout of a form, N and C that are taken.
#[tactic(auto, unfolding(crate::specs::Words::laid))]
pub fn laid(form: u64, n: u64, c: u64) -> Option<Layout>
    ensures { result ≡ laid (shape form n c) }
{
    if !known(form, n, c) {
        return None;
    }
    Some(Layout::new(form, n as usize, c as usize))
}

// The layout that an area's own words name.
pub fn layout(area: &[u64]) -> Layout
    requires { is_area area.now ≡ true }
    ensures { result ≡ layout_of (shape_of area.now) }
{
    let n = area[Layout::READERS];
    let c = area[Layout::CAPACITY];
    Layout::new(area[Layout::FORM], n as usize, c as usize)
}
