//! The tools, and the options and operands that each accepts. `parsing`, `constraints`, `operand_checks` and `command`
//! use it.

ghost use Rattle.std.specs.Prelude.{◌≡◌, Bool};
ghost use Rattle.ptopts.specs.Private.Syntax.{syntax};
ghost use Rattle.ptopts.specs.Private.Syntax.{syntax_view};
ghost use Rattle.ptopts.specs.Args.{tool_of_name, is_flag, takes_value, has_letter};

/// The names of the tools, as part of a sentence.
pub const TOOLS: &str = "cut, paste, join, comm, uniq or tr";

/// One of the tools.
#[derive(Clone, Copy)]
pub(crate) enum Tool {
    Cut,
    Paste,
    Uniq,
    Comm,
    Join,
    Tr,
}

/// A constraint between options.
#[derive(Clone, Copy)]
pub(crate) enum Constraint {
    /// The two options conflict.
    Conflict(u8, u8),
    /// One of the three options is required.
    Required(u8, u8, u8),
}

/// The options and operands that a tool accepts.
#[derive(Clone, Copy)]
pub(crate) struct Syntax {
    /// The options without a value.
    pub flags: &'static [u8],
    /// The options with a value.
    pub value_letters: &'static [u8],
    /// Those of them that may be repeated.
    pub repeatable: &'static [u8],
    /// The constraints between options, in the order in which they are checked.
    pub constraints: &'static [Constraint],
    /// The least number of operands.
    pub min_operands: usize,
    /// The greatest number of operands.
    pub max_operands: usize,
    /// At most one of the operands is standard input.
    pub stdin_once: bool,
}

/// The greatest number of operands of a command line.
const OPERAND_LIMIT: usize = 512;

const CUT: Syntax = Syntax {
    flags: b"nsz",
    value_letters: b"bcfd",
    repeatable: b"",
    constraints: &[
        Constraint::Conflict(b'b', b'c'),
        Constraint::Conflict(b'b', b'f'),
        Constraint::Conflict(b'c', b'f'),
        Constraint::Required(b'b', b'c', b'f'),
        Constraint::Conflict(b'c', b'n'),
        Constraint::Conflict(b'f', b'n'),
        Constraint::Conflict(b'b', b'd'),
        Constraint::Conflict(b'c', b'd'),
        Constraint::Conflict(b'b', b's'),
        Constraint::Conflict(b'c', b's'),
    ],
    min_operands: 0,
    max_operands: OPERAND_LIMIT,
    stdin_once: false,
};

const PASTE: Syntax = Syntax {
    flags: b"sz",
    value_letters: b"d",
    repeatable: b"",
    constraints: &[],
    min_operands: 1,
    max_operands: OPERAND_LIMIT,
    stdin_once: false,
};

const UNIQ: Syntax = Syntax {
    flags: b"cduz",
    value_letters: b"fs",
    repeatable: b"",
    constraints: &[
        Constraint::Conflict(b'c', b'd'),
        Constraint::Conflict(b'c', b'u'),
        Constraint::Conflict(b'd', b'u'),
    ],
    min_operands: 0,
    max_operands: 2,
    stdin_once: false,
};

const COMM: Syntax = Syntax {
    flags: b"123rz",
    value_letters: b"",
    repeatable: b"",
    constraints: &[],
    min_operands: 2,
    max_operands: 2,
    stdin_once: true,
};

const JOIN: Syntax = Syntax {
    flags: b"rz",
    value_letters: b"aveot12",
    repeatable: b"av",
    constraints: &[Constraint::Conflict(b'a', b'v')],
    min_operands: 2,
    max_operands: 2,
    stdin_once: true,
};

const TR: Syntax = Syntax {
    flags: b"cCds",
    value_letters: b"",
    repeatable: b"",
    constraints: &[Constraint::Conflict(b'c', b'C')],
    min_operands: 1,
    max_operands: 2,
    stdin_once: false,
};

impl Tool {
    /// The tool with this name, or `None`.
    pub(crate) fn from_name(name: &str) -> Option<Tool>
        ensures { result ≡ tool_of_name name.now }
    {
        match name {
            "cut" => Some(Tool::Cut),
            "paste" => Some(Tool::Paste),
            "join" => Some(Tool::Join),
            "comm" => Some(Tool::Comm),
            "uniq" => Some(Tool::Uniq),
            "tr" => Some(Tool::Tr),
            _ => None,
        }
    }

    /// The syntax of the tool.
    pub(crate) fn syntax(self) -> Syntax
        ensures { syntax_view result ≡ syntax self }
    {
        match self {
            Tool::Cut => CUT,
            Tool::Paste => PASTE,
            Tool::Uniq => UNIQ,
            Tool::Comm => COMM,
            Tool::Join => JOIN,
            Tool::Tr => TR,
        }
    }

    /// Whether the letter is an option without a value.
    pub(crate) fn has_flag(self, letter: u8) -> bool
        ensures { result ≡ is_flag self letter }
    {
        self.syntax().flags.contains(&letter)
    }

    /// Whether the letter is an option with a value.
    pub(crate) fn takes_value(self, letter: u8) -> bool
        ensures { result ≡ takes_value self letter }
    {
        self.syntax().value_letters.contains(&letter)
    }

    /// Whether the option may be repeated.
    pub(crate) fn may_repeat(self, letter: u8) -> bool
        ensures { result ≡ has_letter letter (syntax self).repeatable }
    {
        self.syntax().repeatable.contains(&letter)
    }
}
