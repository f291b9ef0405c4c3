// The work words that the calls on texts want.
ghost use Rattle.std.specs.Prelude.{◌≡◌, ◌+◌, ◌*◌, ◌^◌, ◌≤◌, Decides};
ghost use Rattle.views.specs.Room.{room_for, cut_words};

// The work words that a call wants on a view and texts of so many bytes.
pub fn work_words(view: usize, texts: usize) -> u128
    ensures { result ≡ room_for view texts }
{
    let counted = view.min(1025) as u128;
    let cells = (1 + counted) * (1 + texts as u128);
    4096 + counted * counted + (64 + cells / 8)
}

// Whether there are as many.
pub(crate) fn has_room(view: usize, texts: usize, words: usize) -> bool
    ensures { Decides result (room_for view texts ≤ words) }
{
    work_words(view, texts) <= words as u128
}

// The words that one cut text takes: a tree, a bit for each of its nodes twice, and two bits for each node and each byte.
pub(crate) fn cut_words(view: usize, text: usize) -> usize
    requires short { view ≤ 1024 }
    requires small { text * view + 2 ^ 32 ≤ 2 ^ 64 }
    ensures { result ≡ cut_words view text }
{
    let nodes = view / 32 + 1;
    let cells = text * view / 32 + 1;
    4 * view + 2 * nodes + 2 * cells
}
