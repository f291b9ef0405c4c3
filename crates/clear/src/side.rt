// The two sides of a view.

// Sources are the museum's texts, looks are what the page shows of them.
#[derive(Clone, Copy, Debug, PartialEq, Eq)]
pub enum Side {
    Source,
    Look,
}
