// The commands of the designer's console as one table: a row for each command, with its name, what comes after the name, and what a designer is told to
// write; beside it what each command does. Whoever reads, writes or explains commands goes by it, so that a further command is a further row.
// Every public function here is proved, total and without a `requires`.
#![tactic(auto)]

ghost use Rattle.std.specs.Prelude.{◌≡◌};
ghost use Rattle.text.specs.Text.{put_in, put_end};
ghost use Rattle.command_table.specs.Commands.{name_at, usage_at, command_of};

// What changes or tells the unit and the bank of a session.
#[derive(Clone, Copy)]
pub enum Act {
    Mark,
    Unmark,
    Search,
    Read,
    Tick,
    Start,
    Bank,
}

// What is asked about a function.
#[derive(Clone, Copy)]
pub enum Ask {
    Vector,
    Row,
    States,
    Greedy,
    Bound,
    Upper,
    Constant,
    Judge,
}

// What is written to a file, listed, drawn, looked for, played or given delays; the session stays as it is.
#[derive(Clone, Copy)]
pub enum Show {
    Save,
    List,
    Table,
    Diagram,
    Loop,
    Record,
    Simulate,
    Delays,
}

// What is shown of the file of a plan record; no unit is wanted.
#[derive(Clone, Copy)]
pub enum View {
    Report,
    Ring,
}

// What is done at the issue port, at which tasks wait in a queue.
#[derive(Clone, Copy)]
pub enum Issue {
    Arrive,
    Pass,
    Queue,
}

// What is done at a port that several callers share.
#[derive(Clone, Copy)]
pub enum Share {
    Callers,
    Call,
    Turn,
}

// What a command does. Fresh and load make a unit; small makes one, or tells the totals of a size.
#[derive(Clone, Copy)]
pub enum Verb {
    Fresh,
    Load,
    Small,
    Act(Act),
    Ask(Ask),
    Show(Show),
    View(View),
    Issue(Issue),
    Share(Share),
}

// What comes after the name of a command: so many numbers; so many, and one more that may be left out; so many, and then the name of a file; so many,
// and then the name of a file, which may be left out; a tag and the latencies of a cycle; or a list of numbers, which may be empty.
#[derive(Clone, Copy)]
pub enum Form {
    Numbers(usize),
    Optional(usize),
    File(usize),
    OptionalFile(usize),
    Cycle,
    List,
}

// A command that was found: the index of its row, what comes after its name, and what it does.
#[derive(Clone, Copy)]
pub struct Entry {
    pub row: usize,
    pub form: Form,
    pub verb: Verb,
}

// A row of the table: the name of a command, its usage (the name, and what a designer is told to write after it), what comes after the name, and what it does.
#[derive(Clone, Copy)]
struct Row {
    name: &'static [u8],
    usage: &'static [u8],
    form: Form,
    verb: Verb,
}

// The table, a row for each command.
const ROWS: [Row; 34] = [
    Row {
        name: b"fresh",
        usage: b"fresh P S C",
        form: Form::Numbers(3),
        verb: Verb::Fresh,
    },
    Row {
        name: b"mark",
        usage: b"mark Q R C",
        form: Form::Numbers(3),
        verb: Verb::Act(Act::Mark),
    },
    Row {
        name: b"unmark",
        usage: b"unmark Q R C",
        form: Form::Numbers(3),
        verb: Verb::Act(Act::Unmark),
    },
    Row {
        name: b"search",
        usage: b"search Q",
        form: Form::Numbers(1),
        verb: Verb::Act(Act::Search),
    },
    Row {
        name: b"read",
        usage: b"read",
        form: Form::Numbers(0),
        verb: Verb::Act(Act::Read),
    },
    Row {
        name: b"vector",
        usage: b"vector Q",
        form: Form::Numbers(1),
        verb: Verb::Ask(Ask::Vector),
    },
    Row {
        name: b"row",
        usage: b"row Q R",
        form: Form::Numbers(2),
        verb: Verb::Ask(Ask::Row),
    },
    Row {
        name: b"states",
        usage: b"states Q",
        form: Form::Numbers(1),
        verb: Verb::Ask(Ask::States),
    },
    Row {
        name: b"greedy",
        usage: b"greedy Q",
        form: Form::Numbers(1),
        verb: Verb::Ask(Ask::Greedy),
    },
    Row {
        name: b"bound",
        usage: b"bound Q",
        form: Form::Numbers(1),
        verb: Verb::Ask(Ask::Bound),
    },
    Row {
        name: b"upper",
        usage: b"upper Q",
        form: Form::Numbers(1),
        verb: Verb::Ask(Ask::Upper),
    },
    Row {
        name: b"constant",
        usage: b"constant Q",
        form: Form::Numbers(1),
        verb: Verb::Ask(Ask::Constant),
    },
    Row {
        name: b"judge",
        usage: b"judge Q L L ..",
        form: Form::Cycle,
        verb: Verb::Ask(Ask::Judge),
    },
    Row {
        name: b"tick",
        usage: b"tick",
        form: Form::Numbers(0),
        verb: Verb::Act(Act::Tick),
    },
    Row {
        name: b"start",
        usage: b"start Q",
        form: Form::Numbers(1),
        verb: Verb::Act(Act::Start),
    },
    Row {
        name: b"bank",
        usage: b"bank",
        form: Form::Numbers(0),
        verb: Verb::Act(Act::Bank),
    },
    Row {
        name: b"load",
        usage: b"load FILE",
        form: Form::File(0),
        verb: Verb::Load,
    },
    Row {
        name: b"save",
        usage: b"save FILE",
        form: Form::File(0),
        verb: Verb::Show(Show::Save),
    },
    Row {
        name: b"list",
        usage: b"list",
        form: Form::Numbers(0),
        verb: Verb::Show(Show::List),
    },
    Row {
        name: b"table",
        usage: b"table Q",
        form: Form::Numbers(1),
        verb: Verb::Show(Show::Table),
    },
    Row {
        name: b"diagram",
        usage: b"diagram Q",
        form: Form::Numbers(1),
        verb: Verb::Show(Show::Diagram),
    },
    Row {
        name: b"loop",
        usage: b"loop Q Q ..",
        form: Form::List,
        verb: Verb::Show(Show::Loop),
    },
    Row {
        name: b"record",
        usage: b"record Q FILE",
        form: Form::File(1),
        verb: Verb::Show(Show::Record),
    },
    Row {
        name: b"report",
        usage: b"report FILE",
        form: Form::File(0),
        verb: Verb::View(View::Report),
    },
    Row {
        name: b"ring",
        usage: b"ring FILE",
        form: Form::File(0),
        verb: Verb::View(View::Ring),
    },
    Row {
        name: b"simulate",
        usage: b"simulate Q UNITS",
        form: Form::Numbers(2),
        verb: Verb::Show(Show::Simulate),
    },
    Row {
        name: b"delays",
        usage: b"delays Q M [FILE]",
        form: Form::OptionalFile(2),
        verb: Verb::Show(Show::Delays),
    },
    Row {
        name: b"arrive",
        usage: b"arrive Q TICKET",
        form: Form::Numbers(2),
        verb: Verb::Issue(Issue::Arrive),
    },
    Row {
        name: b"pass",
        usage: b"pass",
        form: Form::Numbers(0),
        verb: Verb::Issue(Issue::Pass),
    },
    Row {
        name: b"queue",
        usage: b"queue",
        form: Form::Numbers(0),
        verb: Verb::Issue(Issue::Queue),
    },
    Row {
        name: b"callers",
        usage: b"callers C",
        form: Form::Numbers(1),
        verb: Verb::Share(Share::Callers),
    },
    Row {
        name: b"call",
        usage: b"call I Q TICKET",
        form: Form::Numbers(3),
        verb: Verb::Share(Share::Call),
    },
    Row {
        name: b"turn",
        usage: b"turn",
        form: Form::Numbers(0),
        verb: Verb::Share(Share::Turn),
    },
    Row {
        name: b"small",
        usage: b"small S C [NUMBER]",
        form: Form::Optional(2),
        verb: Verb::Small,
    },
];

// The command that has the name, if any has.
pub fn find(word: &[u8]) -> Option<Entry>
    ensures { result ≡ command_of word.now }
{
    for (row, command) in ROWS.iter().enumerate() {
        if command.name == word {
            return Some(Entry {
                row,
                form: command.form,
                verb: command.verb,
            });
        }
    }
    None
}

// Puts the name of a command.
pub fn put_name(out: &mut [u8], at: usize, index: usize) -> usize
    ensures value { result ≡ put_end out.old at (name_at index) }
    ensures out_after { out.new ≡ put_in out.old at (name_at index) }
{
    match ROWS.get(index) {
        Some(row) => text::put(out, at, row.name),
        None => at,
    }
}

// Puts the usage of a command: its name, and what a designer is told to write after it.
pub fn put_usage(out: &mut [u8], at: usize, index: usize) -> usize
    ensures value { result ≡ put_end out.old at (usage_at index) }
    ensures out_after { out.new ≡ put_in out.old at (usage_at index) }
{
    match ROWS.get(index) {
        Some(row) => text::put(out, at, row.usage),
        None => at,
    }
}
