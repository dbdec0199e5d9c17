//! The commands that the command line may name.
ghost use Rattle.std.specs.Prelude.{◌≡◌};
ghost use Rattle.main_commands.specs.Usage.{action_of};

/// What the first word asks for.
#[derive(Clone, Copy, Debug, PartialEq, Eq)]
pub enum Verb {
    Check,
    Explain,
    Print,
    Run,
    Serve,
    Load,
}

/// What is done with a file.
#[derive(Clone, Copy, Debug, PartialEq, Eq)]
pub enum Action {
    Check,
    Explain,
    Print,
    Run,
    Serve,
}

impl Verb {
    /// What it does with a file, none where it asks for no file.
    pub fn action(self) -> Option<Action>
        ensures { result ≡ action_of self }
    {
        match self {
            Verb::Check => Some(Action::Check),
            Verb::Explain => Some(Action::Explain),
            Verb::Print => Some(Action::Print),
            Verb::Run => Some(Action::Run),
            Verb::Serve => Some(Action::Serve),
            Verb::Load => None,
        }
    }
}

/// The operand of a command, which has to be given.
#[derive(Clone, Copy)]
pub struct OperandRow {
    pub name: &'static str,
    pub help: &'static str,
    pub takes: Takes,
}

/// What an operand is, or what stands after the name of an option.
#[derive(Clone, Copy)]
pub enum Takes {
    /// A number N from `least` to `most`.
    Number { least: u64, most: u64 },
    /// A text, as it is given.
    Text,
}

/// An option `--NAME N` or `--NAME LIST` of a command.
#[derive(Clone, Copy)]
pub struct OptionRow {
    pub name: &'static str,
    pub help: &'static str,
    pub takes: Takes,
}

/// A command, with its operands in order and its options.
#[derive(Clone, Copy)]
pub struct CommandRow {
    pub verb: Verb,
    pub name: &'static str,
    pub about: &'static str,
    pub operands: &'static [OperandRow],
    pub options: &'static [OptionRow],
}

/// The operand of each command that has to do with a file.
const FILE: OperandRow = OperandRow {
    name: "FILE",
    help: "The file of the service",
    takes: Takes::Text,
};

/// How many lines a load has.
const LINES: OperandRow = OperandRow {
    name: "N",
    help: "How many orders are made, from 0 to 600",
    takes: Takes::Number {
        least: 0,
        most: 600,
    },
};

/// How many events a session may have.
const BUDGET: OptionRow = OptionRow {
    name: "budget",
    help: "The most events, or steps, of a session, from 1 to 10000; without it 10000",
    takes: Takes::Number {
        least: 1,
        most: 10_000,
    },
};

/// Which of the strands of a session a turn looks at first.
const PICKS: OptionRow = OptionRow {
    name: "picks",
    help: "Which parallel branch goes first, turn by turn, as numbers with commas between",
    takes: Takes::Text,
};

/// How many connections are accepted.
const CONNECTIONS: OptionRow = OptionRow {
    name: "connections",
    help: "The most connections that are accepted, from 1 to 65536; without it 65536",
    takes: Takes::Number {
        least: 1,
        most: 65_536,
    },
};

/// The commands.
pub static COMMANDS: [CommandRow; 6] = [
    CommandRow {
        verb: Verb::Check,
        name: "check",
        about: "Says whether FILE is well formed, and else where it is not",
        operands: &[FILE],
        options: &[],
    },
    CommandRow {
        verb: Verb::Explain,
        name: "explain",
        about: "Says in words what is wrong with FILE and where, or what may not be meant in it",
        operands: &[FILE],
        options: &[],
    },
    CommandRow {
        verb: Verb::Print,
        name: "print",
        about: "Prints FILE in its canonical form",
        operands: &[FILE],
        options: &[],
    },
    CommandRow {
        verb: Verb::Run,
        name: "run",
        about: "Runs the services of FILE over lines of JSON-RPC from the standard input",
        operands: &[FILE],
        options: &[BUDGET, PICKS],
    },
    CommandRow {
        verb: Verb::Serve,
        name: "serve",
        about: "Serves FILE over HTTP at the locations of its input ports",
        operands: &[FILE],
        options: &[BUDGET, CONNECTIONS],
    },
    CommandRow {
        verb: Verb::Load,
        name: "load",
        about: "Runs N orders of a shop in memory, and says how they went",
        operands: &[LINES],
        options: &[],
    },
];
