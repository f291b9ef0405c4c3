// Views in notation, each with what is to be said of it.
use views::Judged;

#[derive(Clone, Copy)]
pub struct Case {
    pub name: &'static str,
    pub text: &'static str,
    pub expected: Judged,
}

// One for each condition, of which what is to be said was found by hand.
pub const WORKED: [Case; 12] = [
    Case {
        name: "many a, then many a",
        text: "copy 'a'* copy 'a'*",
        expected: Judged::Unclear,
    },
    Case {
        name: "either of a and a",
        text: "\"a\" | \"a\"",
        expected: Judged::Unclear,
    },
    Case {
        name: "each hidden letter, with an empty look",
        text: "each hide 'a'..'z' new \"x\"",
        expected: Judged::Unclear,
    },
    Case {
        name: "each hidden letter, with a point for a look",
        text: "each hide 'a'..'z' as \".\" new \"x\"",
        expected: Judged::Plain,
    },
    Case {
        name: "hide many a, and put a b for a new one",
        text: "hide 'a'* as \"n\" new \"b\"",
        expected: Judged::Unclear,
    },
    Case {
        name: "many a, then many b",
        text: "copy 'a'* copy 'b'*",
        expected: Judged::Plain,
    },
    Case {
        name: "many of a and b, then b",
        text: "copy ('a' | 'b')* \"b\"",
        expected: Judged::Plain,
    },
    Case {
        name: "many of a and b, then many b",
        text: "copy ('a' | 'b')* copy 'b'*",
        expected: Judged::Unclear,
    },
    Case {
        name: "digits, then a hidden letter",
        text: "copy ('0'..'9')* hide 'a'..'z' new \"x\"",
        expected: Judged::Plain,
    },
    Case {
        name: "each of a digit and a hidden letter",
        text: "each (copy '0'..'9' hide 'a'..'z' new \"x\")",
        expected: Judged::Plain,
    },
    Case {
        name: "swap a digit and a letter",
        text: "swap copy '0'..'9' copy 'a'..'z'",
        expected: Judged::Plain,
    },
    Case {
        name: "either of two that are hidden",
        text: "hide 'a' as \"A\" new \"a\" | hide 'b' as \"B\" new \"b\"",
        expected: Judged::Plain,
    },
];

// Faults that writers of views and readers of them have made, each beside what mends it.
pub const FAULTS: [Case; 32] = [
    Case {
        name: "fields that may be empty, with both marks",
        text: "copy (not \";\\n\")* \";\" copy (not \";\\n\")* \";\" copy (not \";\\n\")* \"\\n\"",
        expected: Judged::Plain,
    },
    Case {
        name: "fields that may be empty, with a mark left out",
        text: "copy (not \";\\n\")* copy (not \";\\n\")* \";\" copy (not \";\\n\")* \"\\n\"",
        expected: Judged::Unclear,
    },
    Case {
        name: "fields that may be empty, with a mark hidden",
        text: "copy (not \";\\n\")* hide ';' new \";\" copy (not \";\\n\")* \";\" copy (not \";\\n\")* \"\\n\"",
        expected: Judged::Unclear,
    },
    Case {
        name: "a hidden field with its mark shown",
        text: "copy (not \";\\n\")* \";\" hide (not \";\\n\")* new \"\" \";\" copy (not \";\\n\")* \"\\n\"",
        expected: Judged::Plain,
    },
    Case {
        name: "a hidden field with its mark hidden",
        text: "copy (not \";\\n\")* \";\" hide ((not \";\\n\")* ';') new \";\" copy (not \";\\n\")* \"\\n\"",
        expected: Judged::Plain,
    },
    Case {
        name: "a hidden field with both marks hidden",
        text: "copy (not \";\\n\")* hide (';' (not \";\\n\")* ';') new \";;\" copy (not \";\\n\")* \"\\n\"",
        expected: Judged::Unclear,
    },
    Case {
        name: "a remark with marks, before the next field",
        text: "copy (not \"\\n\")* \";\" copy (not \";\\n\")* \"\\n\"",
        expected: Judged::Plain,
    },
    Case {
        name: "a remark with marks, before the next two fields",
        text: "copy (not \";\\n\")* \";\" copy (not \"\\n\")* \";\" copy (not \"\\n\")* \"\\n\"",
        expected: Judged::Unclear,
    },
    Case {
        name: "a remark with marks, to the end of the line",
        text: "copy (not \";\\n\")* \";\" copy (not \";\\n\")* \";\" copy (not \"\\n\")* \"\\n\"",
        expected: Judged::Plain,
    },
    Case {
        name: "a remark that can be taken for the next field",
        text: "copy (('a'..'z' | '0'..'9')* ';')? copy (('0'..'9')* ';')?",
        expected: Judged::Unclear,
    },
    Case {
        name: "a remark that can't be taken for the next field",
        text: "copy (('a'..'z')+ ';')? copy (('0'..'9')* ';')?",
        expected: Judged::Plain,
    },
    Case {
        name: "swap that is cut once in the sources' order only",
        text: "swap copy (\"c\" | \"bc\") copy (\"a\" | \"ab\")",
        expected: Judged::Unclear,
    },
    Case {
        name: "swap that is cut once in the looks' order only",
        text: "swap copy (\"a\" | \"ab\") copy (\"c\" | \"bc\")",
        expected: Judged::Unclear,
    },
    Case {
        name: "swap whose looks are cut once in the sources' order only",
        text: "swap (hide 'z' as \"c\" new \"z\" | hide 'w' as \"bc\" new \"w\") (hide 'x' as \"a\" new \"x\" | hide 'y' as \"ab\" new \"y\")",
        expected: Judged::Unclear,
    },
    Case {
        name: "swap whose looks are cut once in the looks' order only",
        text: "swap (hide 'x' as \"a\" new \"x\" | hide 'y' as \"ab\" new \"y\") (hide 'z' as \"c\" new \"z\" | hide 'w' as \"bc\" new \"w\")",
        expected: Judged::Plain,
    },
    Case {
        name: "the same two, one after the other",
        text: "(hide 'x' as \"a\" new \"x\" | hide 'y' as \"ab\" new \"y\") (hide 'z' as \"c\" new \"z\" | hide 'w' as \"bc\" new \"w\")",
        expected: Judged::Unclear,
    },
    Case {
        name: "each of what can be empty",
        text: "each copy 'a'*",
        expected: Judged::Unclear,
    },
    Case {
        name: "each of what can be left out",
        text: "each (\"a\" | \"\")",
        expected: Judged::Unclear,
    },
    Case {
        name: "each of a source that can be empty, with a look that can't",
        text: "each hide 'a'* as \".\" new \"\"",
        expected: Judged::Unclear,
    },
    Case {
        name: "each of a line whose fields can be empty",
        text: "each (copy (not \";\\n\")* \"\\n\")",
        expected: Judged::Plain,
    },
    Case {
        name: "each of what is never empty, cut in two ways",
        text: "each copy ('a' | \"aa\")",
        expected: Judged::Unclear,
    },
    Case {
        name: "each in each",
        text: "each each \"a\"",
        expected: Judged::Unclear,
    },
    Case {
        name: "either whose looks are the same",
        text: "hide 'a' as \"x\" new \"a\" | hide 'b' as \"x\" new \"b\"",
        expected: Judged::Unclear,
    },
    Case {
        name: "either whose looks overlap",
        text: "hide 'a' as \"x\" new \"a\" | copy 'v'..'z'",
        expected: Judged::Unclear,
    },
    Case {
        name: "either whose sources overlap",
        text: "hide 'x' as \"a\" new \"x\" | copy 'v'..'z'",
        expected: Judged::Unclear,
    },
    Case {
        name: "either of many a and many b, which are both empty once",
        text: "copy 'a'* | copy 'b'*",
        expected: Judged::Unclear,
    },
    Case {
        name: "letters from 'A' to 'z', then brackets",
        text: "copy ('A'..'z')* copy '['*",
        expected: Judged::Unclear,
    },
    Case {
        name: "letters, then brackets",
        text: "copy ('A'..'Z' | 'a'..'z')* copy '['*",
        expected: Judged::Plain,
    },
    Case {
        name: "either of 'A' to 'z' and a bracket",
        text: "copy 'A'..'z' | \"[\"",
        expected: Judged::Unclear,
    },
    Case {
        name: "either of a letter and a bracket",
        text: "copy ('A'..'Z' | 'a'..'z') | \"[\"",
        expected: Judged::Plain,
    },
    Case {
        name: "letters from 'A' to 'z', then one bracket",
        text: "copy ('A'..'z')* \"[\"",
        expected: Judged::Plain,
    },
    Case {
        name: "hide of what the new text is none of, deep down",
        text: "each (copy '0'..'9' hide 'a'..'z' new \"xy\")",
        expected: Judged::Unclear,
    },
];
