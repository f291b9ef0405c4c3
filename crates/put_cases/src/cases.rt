// Views in notation, a source, a look, and what the look put back into the source gives; or what is wrong with them.

pub struct Case {
    pub view: &'static str,
    pub source: &'static str,
    pub look: &'static str,
}

const NUMBERED: &str = "copy ('0'..'9')* hide 'a'..'z' new \"x\"";

const MANY_NUMBERED: &str = "each (copy '0'..'9' hide 'a'..'z' new \"x\")";

const SWAPPED: &str = "swap (copy '0'..'9') (copy 'a'..'z')";

const DOTS: &str = "each (hide 'a'..'z' as \".\" new \"x\")";

const CAPITALS: &str = "hide 'a' as \"A\" new \"a\" | hide 'b' as \"B\" new \"b\"";

const DATED: &str =
    "each (copy ('a'..'z')+ \" \" (copy ('0'..'9')+ | hide (\"nd\" | \"no date\") as \"?\" new \"nd\") hide (\"[\" ('a'..'z')* ']')? new \"\" \"\\n\")";

const NESTED: &str =
    "swap (swap (copy 'a'* hide '1'* new \"1\") (copy 'b'+)) (swap (copy 'c') (hide '2'* new \"\" copy 'd'*))";

const CATALOGUE: &str =
    "each (copy (not \";\\n\")* \";\" hide (not \";\\n\")* new \"\" \";\" copy (not \"\\n\")* \"\\n\")";

pub const CASES: [Case; 29] = [
    Case {
        view: NUMBERED,
        source: "12a",
        look: "1",
    },
    Case {
        view: NUMBERED,
        source: "a",
        look: "123",
    },
    Case {
        view: NUMBERED,
        source: "12a",
        look: "",
    },
    Case {
        view: NUMBERED,
        source: "12",
        look: "1",
    },
    Case {
        view: NUMBERED,
        source: "12a",
        look: "a",
    },
    Case {
        view: NUMBERED,
        source: "12",
        look: "a",
    },
    Case {
        view: MANY_NUMBERED,
        source: "1a2b",
        look: "132",
    },
    Case {
        view: MANY_NUMBERED,
        source: "1a2b",
        look: "1",
    },
    Case {
        view: MANY_NUMBERED,
        source: "1a2b",
        look: "",
    },
    Case {
        view: MANY_NUMBERED,
        source: "1a2b",
        look: "34",
    },
    Case {
        view: MANY_NUMBERED,
        source: "",
        look: "12",
    },
    Case {
        view: MANY_NUMBERED,
        source: "",
        look: "",
    },
    Case {
        view: SWAPPED,
        source: "1a",
        look: "b2",
    },
    Case {
        view: SWAPPED,
        source: "1a",
        look: "1a",
    },
    Case {
        view: DOTS,
        source: "ab",
        look: "...",
    },
    Case {
        view: DOTS,
        source: "ab",
        look: ".",
    },
    Case {
        view: DOTS,
        source: "",
        look: "..",
    },
    Case {
        view: CAPITALS,
        source: "a",
        look: "B",
    },
    Case {
        view: CAPITALS,
        source: "a",
        look: "A",
    },
    Case {
        view: DATED,
        source: "sea 1891[aro]\nice no date[lind]\nfog nd\n",
        look: "sea ?\nice ?\nfog 1910\ndew ?\n",
    },
    Case {
        view: DATED,
        source: "sea 1891[aro]\nice no date[lind]\nfog nd\n",
        look: "sea 1892\nice 7\n",
    },
    Case {
        view: NESTED,
        source: "aa11bbc22dd",
        look: "dcba",
    },
    Case {
        view: NESTED,
        source: "bc",
        look: "dddcbbaaa",
    },
    Case {
        view: CATALOGUE,
        source: "7;Ann;a;b\n8;;\n",
        look: "7;;a;c;\n8;;d\n9;;\n",
    },
    Case {
        view: CATALOGUE,
        source: "7;Ann;a;b\n8;Bo;\n",
        look: "8;;\n",
    },
    Case {
        view: CATALOGUE,
        source: "",
        look: "",
    },
    Case {
        view: "copy (\"\" | 'b')*",
        source: "b",
        look: "bb",
    },
    Case {
        view: "copy 'a'* copy 'a'*",
        source: "aa",
        look: "a",
    },
    Case {
        view: "hide 'a'* as \"longer than it\" new \"\"",
        source: "aaa",
        look: "longer than it",
    },
];
