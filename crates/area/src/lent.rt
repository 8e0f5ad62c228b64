// Words that are lent as an area: to be read alone, or to be stored to. A layout fits them, which is what each proves
// that makes one. They are two, as `&[T]` and `&mut [T]` are. Reads and stores are inlined, so that what a place is is
// settled where the code names it.
ghost use Rattle.area.specs.Words.{Sized};

use crate::Layout;
use crate::places::{Place, Row};

// An area to be read.
#[derive(Clone, Copy)]
pub struct View<'a> {
    pub words: &'a [u64],
    pub layout: Layout,
    pub ghost sized: { Sized layout words.now },
}

impl<'a> View<'a> {
    ghost use Rattle.std.specs.Prelude.{◌≡◌};
    ghost use Rattle.area.specs.Places.{as_place, Within};
    ghost use Rattle.area.specs.Lent.{memory_seen};

    // What a place holds.
    #[inline(always)]
    pub fn get(&self, place: Place) -> u64
        requires { Within self.now.layout place }
        ensures { result ≡ memory_seen self.now (as_place place) }
    {
        self.words[self.layout.word_of(place)]
    }
}

// An area to be stored to. Three facts stay clauses of the steps, since a type for them would be no plainer. That it is
// undamaged (`Ready`): between two stores of a step it may not be, and a type that a step takes apart first would leave
// the words under a name of the checker's. That a reader is one of its N: a type for both would hold the area, and each
// clause would carry its names besides. That it is the same lent area afterwards (`Same`): a contract is an equation,
// and this is no part of it.
#[derive(Drop)]
pub struct Area<'a> {
    pub words: &'a mut [u64],
    pub layout: Layout,
    pub ghost sized: { Sized layout words.now },
}

impl<'a> Area<'a> {
    ghost use Rattle.std.specs.Prelude.{◌≡◌, ◌≤◌, ◌∷◌, [], length};
    ghost use Rattle.theory.specs.Place.{◌≔◌, copied};
    ghost use Rattle.area.specs.Places.{as_place, as_row, Within, RowWithin};
    ghost use Rattle.area.specs.Lent.{memory_at, After};

    // The same area, to be read.
    #[inline(always)]
    pub fn view(&self) -> View<'_>
        ensures words { result.words.now ≡ self.now.words.now }
        ensures layout { result.layout ≡ self.now.layout }
    {
        View {
            words: self.words,
            layout: self.layout,
        }
    }

    // What a place holds.
    #[inline(always)]
    pub fn get(&self, place: Place) -> u64
        requires { Within self.now.layout place }
        ensures { result ≡ memory_at self.now (as_place place) }
    {
        self.view().get(place)
    }

    // A place becomes v.
    #[inline(always)]
    pub fn set(&mut self, place: Place, v: u64)
        requires { Within self.old.layout place }
        ensures { After self.old (as_place place ≔ v ∷ []) self.new }
    {
        let at = self.layout.word_of(place);
        self.words[at] = v;
    }

    // A record's words go into a row; the words of the row behind them stay. That they fit is a clause: whoever begins
    // tests a record once.
    pub fn copy_in(&mut self, row: Row, record: &[u64])
        requires { RowWithin self.old.layout row × (length «record».now ≤ self.old.layout.c) }
        ensures { After self.old (copied (as_row row) 0 «record».now) self.new }
    {
        for (j, &word) in record.iter().enumerate() {
            self.set(row.place(j), word);
        }
    }
}
