// A cut text with the row of its view, and the walk over it: what each part turns into on the other side.
// Not here: views without views in them (give.rt), and where the parts of a text are (cut_text.rt).
ghost use Rattle.std.specs.Prelude.{◌≡◌};
ghost use Rattle.walk.specs.Turns.{front, back};

use crate::cut_text::CutText;
use crate::delivery::Give;
use crate::give::{give_hidden, give_part};
use crate::sink::Sink;
use crate::span::Span;
use clear::Side;
use rows::{Row, ViewNode, view_node};

#[derive(Clone, Copy)]
pub struct Turned<'v, 'w, 't> {
    pub row: Row<'v>,
    pub cut: CutText<'w, 't>,
}

impl<'v, 'w, 't> Give for Turned<'v, 'w, 't> {
    ghost use Rattle.walk.specs.Turned.{CutWhole, TurnedWhole, turned_one};

    ghost can = { λ s. CutWhole s.row.bytes.now s.cut };

    ghost gives = { λ s u. TurnedWhole s.row.bytes.now s.cut u };

    ghost one = { λ s u w c a b. turned_one c a b };

    fn give<S: Sink>(&self, sink: &mut S) {
        self.turn_whole(sink);
    }
}

impl<'v, 'w, 't> Turned<'v, 'w, 't> {
    ghost use Rattle.std.specs.Prelude.{◌≤◌, length};
    ghost use Rattle.lens.specs.Views.{View, each};
    ghost use Rattle.walk.specs.Spans.{slice};
    ghost use Rattle.walk.specs.Turns.{Turns, GivesSome};
    ghost use Rattle.walk.specs.Walks.{CutWalk, CutWalks, CutSeries, SomeCutSeries};
    ghost use Rattle.walk.specs.Turned.{WholeWalk};

    // Gives what the whole text turns into on the other side. The view need not be clear.
    pub fn turn_whole<S: Sink>(&self, sink: &mut S)
        requires { CutWalks self.now.row.bytes.now self.now.cut 0 0 (length self.now.cut.scanned.text.now) }
        ensures { (v : View) → WholeWalk self.now.row.bytes.now self.now.cut v → GivesSome (Turns self.now.cut.side v self.now.cut.scanned.text.now) (S.took sink.old sink.new) }
    {
        self.turn_part(0, Span::all(self.cut.scanned.text), sink);
    }

    // Gives what the part of the view at `place` turns into on the other side.
    #[cycle(turning)]
    pub fn turn_part<S: Sink>(&self, place: usize, part: Span, sink: &mut S)
        requires { CutWalks self.now.row.bytes.now self.now.cut place part.at part.«end» }
        ensures { (v : View) → CutWalk self.now.row.bytes.now self.now.cut place part.at part.«end» v → GivesSome (Turns self.now.cut.side v (slice self.now.cut.scanned.text.now part.at part.«end»)) (S.took sink.old sink.new) }
    {
        let cut = &self.cut;
        let Some(node) = view_node(self.row.bytes, place) else {
            return;
        };
        match node {
            ViewNode::Copy(_) => give_part(cut.scanned.text, part, sink),
            ViewNode::Hide(form) => give_hidden(&self.row, cut.side, form, sink),
            ViewNode::Then(first) => {
                let second = cut.second_of(place, first);
                let (front, back) = part.split(cut.end_of(first, part.at));
                self.turn_part(first, front, sink);
                self.turn_part(second, back, sink);
            }
            ViewNode::Swap(first) => {
                let second = cut.second_of(place, first);
                let (ahead, behind) = in_order(cut.side, first, second);
                let (front, back) = part.split(cut.end_of(ahead, part.at));
                self.turn_part(behind, back, sink);
                self.turn_part(ahead, front, sink);
            }
            ViewNode::Either(first) => {
                let second = cut.second_of(place, first);
                if cut.takes_first(first, second, part.at) {
                    self.turn_part(first, part, sink);
                } else {
                    self.turn_part(second, part, sink);
                }
            }
            ViewNode::Each(body) => self.turn_each(body, part, sink),
        }
    }

    // Gives what the parts of the view at `place` turn into, one after the other.
    #[cycle(turning)]
    fn turn_each<S: Sink>(&self, place: usize, parts: Span, sink: &mut S)
        requires { SomeCutSeries self.now.row.bytes.now self.now.cut place parts.at parts.«end» }
        ensures { (l : View) → CutSeries self.now.row.bytes.now self.now.cut place parts.at parts.«end» l → GivesSome (Turns self.now.cut.side (each l) (slice self.now.cut.scanned.text.now parts.at parts.«end»)) (S.took sink.old sink.new) }
    {
        let mut from = parts.at;
        'parts: while from < parts.end {
            let next = self.cut.end_of(place, from);
            self.turn_part(
                place,
                Span {
                    at: from,
                    end: next,
                },
                sink,
            );
            from = next;
        }
    }
}

// The two parts of a swap in the order in which they stand in the text.
fn in_order(side: Side, first: usize, second: usize) -> (usize, usize)
    ensures { result ≡ (front side first second, back side first second) }
{
    match side {
        Side::Source => (first, second),
        Side::Look => (second, first),
    }
}
