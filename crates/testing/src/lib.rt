#![tactic(auto)]
// The test of an area, which every call makes first. Test 1: whether words are an area. Test 2, in `sound`: whether it
// is undamaged.
ghost use Rattle.std.specs.Prelude.{◌≡◌, ◌≤◌, length};
ghost use Rattle.theory.specs.Lists.{all};
ghost use Rattle.testing.specs.Test.{fit_tests, named, test_result, why};

use answer::refusals::Refusal;
use area::lent::View;
use area::{Layout, header};

mod sound;

// Whether words 3 to 6 and the number of words are those of a layout: before, there is no `View` of both.
fn fits(area: &[u64], p: Layout) -> bool
    requires { 8 ≤ length area.now }
    ensures { result ≡ all (fit_tests p area.now) }
{
    let total = area[Layout::TOTAL] == p.total as u64;
    let slots = area[Layout::SLOTS_AT] == p.slots as u64;
    let desks = area[Layout::DESKS_AT] == p.desks as u64;
    let writer = area[Layout::WRITER_AT] == p.writer as u64;
    total & slots & desks & writer & (area.len() == p.total)
}

// The layout that words name, if they are an area.
#[tactic(auto, unfolding(area::specs::Words::laid, register::specs::Area::is_area))]
fn named(area: &[u64]) -> Option<Layout>
    ensures { result ≡ named area.now }
{
    if area.len() < Layout::HEADER {
        return None;
    }
    let form = area[Layout::FORM];
    let n = area[Layout::READERS];
    let c = area[Layout::CAPACITY];
    let p = header::laid(form, n, c)?;
    fits(area, p).then_some(p)
}

// Why words are no undamaged area, if they are none. It is left out of line, and hands no layout back: that would come
// in memory.
#[tactic(auto, unfolding(crate::specs::Test::test_result), using(crate::proofs::AreaTest::undamaged_is))]
fn refusal(area: &[u64]) -> Option<Refusal>
    ensures { result ≡ why (test_result area.now) }
{
    let Some(layout) = named(area) else {
        return Some(Refusal::NotAnArea);
    };
    let view = View {
        words: area,
        layout,
    };
    if !sound::undamaged(&view) {
        return Some(Refusal::Damaged);
    }
    None
}

// The layout that an undamaged area names, or why words are none. It is inlined: each call keeps of the layout what it
// needs.
#[inline(always)]
pub fn tested(area: &[u64]) -> Result<Layout, Refusal>
    ensures { result ≡ test_result area.now }
{
    match refusal(area) {
        Some(refusal) => Err(refusal),
        None => Ok(header::layout(area)),
    }
}
