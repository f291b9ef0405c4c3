// A source and a look, both cut by the view of a row, and the walk over both together: the new source, part by part.
ghost use Rattle.put_back.specs.Pairs.{Pair};

use rows::{Row, ViewNode, view_node};
use walk::{CutText, Give, Sink, Span, Turned, give_part};

#[derive(Clone, Copy)]
pub struct PutBack<'v, 'a, 's, 'b, 'l> {
    pub row: Row<'v>,
    pub source: CutText<'a, 's>,
    pub look: CutText<'b, 'l>,
    pub ghost pair: { Pair source look },
}

impl<'v, 'a, 's, 'b, 'l> Give for PutBack<'v, 'a, 's, 'b, 'l> {
    ghost use Rattle.put_back.specs.Whole.{CutBoth, PutWhole, put_one};

    ghost can = { λ s. CutBoth s.row.bytes.now s.source s.look };

    ghost gives = { λ s x. PutWhole s.row.bytes.now s.source s.look x };

    ghost one = { λ s x y c a b. put_one c a b };

    fn give<S: Sink>(&self, sink: &mut S) {
        let old = Span::all(self.source.scanned.text);
        let new = Span::all(self.look.scanned.text);
        self.put_part(0, old, new, sink);
    }
}

impl<'v, 'a, 's, 'b, 'l> PutBack<'v, 'a, 's, 'b, 'l> {
    ghost use Rattle.std.specs.Prelude.{◌≡◌, ◌≤◌, length};
    ghost use Rattle.lens.specs.Views.{View, Puts, each};
    ghost use Rattle.walk.specs.Turns.{Turns, GivesSome};
    ghost use Rattle.walk.specs.Walks.{CutWalk, CutWalks};
    ghost use Rattle.put_back.specs.Pairs.{in_span, WalkBoth, WalksBoth, SeriesBoth, SomeSeriesBoth, NextBoth, SomeNext, PutNext};

    // Gives the source that comes of the part `new` of the look, put back into the part `old` of the source, by the view at
    // `place`.
    #[cycle(putting)]
    pub fn put_part<S: Sink>(&self, place: usize, old: Span, new: Span, sink: &mut S)
        requires { WalksBoth self.now.row.bytes.now self.now.source self.now.look place old new }
        ensures { (v : View) → WalkBoth self.now.row.bytes.now self.now.source self.now.look place old new v → GivesSome (Puts v (in_span self.now.look new) (in_span self.now.source old)) (S.took sink.old sink.new) }
    {
        let source = &self.source;
        let look = &self.look;
        let Some(node) = view_node(self.row.bytes, place) else {
            return;
        };
        match node {
            ViewNode::Copy(_) => give_part(look.scanned.text, new, sink),
            ViewNode::Hide(_) => give_part(source.scanned.text, old, sink),
            ViewNode::Then(first) => {
                let second = source.second_of(place, first);
                let (old_first, old_second) = old.split(source.end_of(first, old.at));
                let (new_first, new_second) = new.split(look.end_of(first, new.at));
                self.put_part(first, old_first, new_first, sink);
                self.put_part(second, old_second, new_second, sink);
            }
            ViewNode::Swap(first) => {
                let second = source.second_of(place, first);
                let (old_first, old_second) = old.split(source.end_of(first, old.at));
                let (new_second, new_first) = new.split(look.end_of(second, new.at));
                self.put_part(first, old_first, new_first, sink);
                self.put_part(second, old_second, new_second, sink);
            }
            ViewNode::Either(first) => {
                let second = source.second_of(place, first);
                if look.takes_first(first, second, new.at) {
                    if source.takes_first(first, second, old.at) {
                        self.put_part(first, old, new, sink);
                    } else {
                        self.make_part(first, new, sink);
                    }
                } else if source.takes_first(first, second, old.at) {
                    self.make_part(second, new, sink);
                } else {
                    self.put_part(second, old, new, sink);
                }
            }
            ViewNode::Each(body) => self.put_each(body, old, new, sink),
        }
    }

    // The same of any number of parts of the view at `place`: the first part of the look into the first part of the source,
    // and so on. Parts of the source that are left over fall away.
    #[cycle(putting)]
    fn put_each<S: Sink>(&self, place: usize, old: Span, new: Span, sink: &mut S)
        requires { SomeSeriesBoth self.now.row.bytes.now self.now.source self.now.look place old new }
        ensures { (l : View) → SeriesBoth self.now.row.bytes.now self.now.source self.now.look place old new l → GivesSome (Puts (each l) (in_span self.now.look new) (in_span self.now.source old)) (S.took sink.old sink.new) }
    {
        let mut from = old.at;
        let mut to = new.at;
        'parts: while to < new.end {
            let end = self.look.end_of(place, to);
            let rest = Span {
                at: from,
                end: old.end,
            };
            from = self.put_next(place, rest, Span { at: to, end }, sink);
            to = end;
        }
    }

    // Puts one part of the look into the next part of the source, or makes a source of it if none is left. Returns where
    // the source goes on.
    #[cycle(putting)]
    fn put_next<S: Sink>(&self, place: usize, rest: Span, part: Span, sink: &mut S) -> usize
        requires { SomeNext self.now.row.bytes.now self.now.source self.now.look place rest part }
        ensures { (l : View) → NextBoth self.now.row.bytes.now self.now.source self.now.look place rest part l → PutNext self.now.row.bytes.now self.now.source self.now.look place rest part l (S.took sink.old sink.new) result }
    {
        if rest.at >= rest.end {
            self.make_part(place, part, sink);
            return rest.at;
        }
        let end = self.source.end_of(place, rest.at);
        self.put_part(place, Span { at: rest.at, end }, part, sink);
        end
    }

    // Makes a source of a part of the look.
    fn make_part<S: Sink>(&self, place: usize, part: Span, sink: &mut S)
        requires { CutWalks self.now.row.bytes.now self.now.look place part.at part.«end» }
        ensures { (v : View) → CutWalk self.now.row.bytes.now self.now.look place part.at part.«end» v → GivesSome (Turns self.now.look.side v (in_span self.now.look part)) (S.took sink.old sink.new) }
    {
        let look = Turned {
            row: self.row,
            cut: self.look,
        };
        look.turn_part(place, part, sink);
    }
}
