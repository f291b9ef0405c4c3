// Worked views, and texts that do and don't fit them.
use views::Side;

// A view in notation, a side, and texts of that side or not.
pub struct Case {
    pub view: &'static str,
    pub side: Side,
    pub texts: &'static [&'static str],
}

// Lines of a catalogue: a number and a name.
pub const LINES: &'static str = "each (copy ('0'..'9')* \";\" copy (not \";\\n\")* \"\\n\")";

const SWAP: &'static str = "swap (copy '0'..'9') (copy 'a'..'z')";

const EITHER: &'static str = "hide 'a' as \"A\" new \"a\" | hide \"bc\" as \"BC\" new \"bc\"";

const HIDE: &'static str = "hide 'a'* as \"none\" new \"\"";

pub const CASES: [Case; 18] = [
    Case {
        view: LINES,
        side: Side::Source,
        texts: &[
            "12;ab\n3;c\n",
            "12;ab\n3x;c\n",
            "",
            "12;ab",
            "12;a;b\n",
            "12;ab\n\n",
        ],
    },
    Case {
        view: "copy '0'..'9'",
        side: Side::Source,
        texts: &["", "1", "12", "x"],
    },
    Case {
        view: SWAP,
        side: Side::Source,
        texts: &["1a", "a1", "1", "11"],
    },
    Case {
        view: SWAP,
        side: Side::Look,
        texts: &["a1", "1a", "a", "aa"],
    },
    Case {
        view: EITHER,
        side: Side::Source,
        texts: &["", "b", "bc", "ac"],
    },
    Case {
        view: EITHER,
        side: Side::Look,
        texts: &["", "B", "BC", "b"],
    },
    Case {
        view: HIDE,
        side: Side::Source,
        texts: &["aaa", "aab"],
    },
    Case {
        view: HIDE,
        side: Side::Look,
        texts: &["no", "none", "nonee", "a"],
    },
    // parts that are empty, one after the other without an end
    Case {
        view: "each (hide 'a' as \"\" new \"a\")",
        side: Side::Look,
        texts: &["", "x"],
    },
    Case {
        view: "copy (\"\" | 'b')*",
        side: Side::Source,
        texts: &["bb", "bbc"],
    },
    Case {
        view: "copy ('a'* 'b'*)*",
        side: Side::Source,
        texts: &["abba", "abca"],
    },
    // views that aren't clear
    Case {
        view: "copy 'a'* copy 'a'*",
        side: Side::Source,
        texts: &["aaa", "aab"],
    },
    Case {
        view: "hide 'a' as \"n\" new \"b\"",
        side: Side::Source,
        texts: &["a", "b"],
    },
    // several ways that go on together for a while
    Case {
        view: "copy (\"abc\" | \"abd\" | \"ax\")",
        side: Side::Source,
        texts: &["abd", "abe", "ab", "ay"],
    },
    Case {
        view: "copy ('a'* 'b') | copy \"aac\"",
        side: Side::Source,
        texts: &["aac", "aad", "ac", "aaac"],
    },
    Case {
        view: "copy ('-'? ('0'..'9')+)",
        side: Side::Source,
        texts: &["-12", "", "-", "1-"],
    },
    // the first byte and the last
    Case {
        view: "copy '\\x00' copy '\\x01'..'\\xff'",
        side: Side::Source,
        texts: &["\x00\x01", "\x00\x00", "\x01", ""],
    },
    Case {
        view: "copy any*",
        side: Side::Source,
        texts: &["\x00", ""],
    },
];
