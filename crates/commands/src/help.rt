/// The first word of a command.
#[derive(Clone, Copy, PartialEq, Eq)]
pub enum Word {
    Put,
    Get,
    Del,
    Scan,
    Count,
    Tables,
    Begin,
    Commit,
    Abort,
    Stat,
    Dump,
    Load,
    Timing,
    Help,
    Quit,
}

/// A command and its explanation.
#[derive(Clone, Copy)]
pub struct Topic {
    pub word: Word,
    pub name: &'static str,
    /// Its name and its arguments.
    pub form: &'static str,
    /// A few words about it.
    pub short: &'static str,
    /// A sentence about it.
    pub long: &'static str,
    /// Lines that show it. A new store can run those of all topics, in their order.
    pub example: &'static str,
}

/// What is printed before the commands.
pub const ROWS: &str =
    "Each row has a table (0 to 65535) and a key (0 to 18446744073709551615). A row is text in quotation marks, as \"milk\",
two hexadecimal digits for each byte, as 6d696c6b, or - for no bytes. Commands may be in capital letters too.";

/// What is printed after them.
pub const LARGER: &str =
    "help WORD explains one, with an example. A full store accepts no more rows and no updates: delete a row, or copy all into a
store with more slots,
    kv old.img dump | kv new.img --slots 1000000 load";

/// The commands.
pub const TOPICS: [Topic; 15] = [
    Topic {
        word: Word::Put,
        name: "put",
        form: "put TABLE KEY ROW",
        short: "writes a row",
        long: "Writes the row under the table and the key, and replaces one that is there. Outside begin and commit it is a transaction by
itself. Once committed is printed, the change survives a kill or a power failure.",
        example: "put 1 5 \"milk\"",
    },
    Topic {
        word: Word::Get,
        name: "get",
        form: "get TABLE KEY",
        short: "prints a row",
        long: "Prints the row under the table and the key, or none.",
        example: "get 1 5",
    },
    Topic {
        word: Word::Del,
        name: "del",
        form: "del TABLE KEY",
        short: "deletes a row",
        long: "Deletes the row under the table and the key, if there is one.",
        example: "del 1 5",
    },
    Topic {
        word: Word::Scan,
        name: "scan",
        form: "scan TABLE [LO [HI]] [--limit N] [--reverse]",
        short: "prints the rows of a table",
        long: "Prints the rows of the table at the keys from LO to HI, both included, in ascending order, and how many. --reverse begins
with the last key, and --limit ends after N rows.",
        example: "scan 1 0 9 --limit 2 --reverse",
    },
    Topic {
        word: Word::Count,
        name: "count",
        form: "count TABLE",
        short: "counts the rows of a table",
        long: "Prints how many rows the table has.",
        example: "count 1",
    },
    Topic {
        word: Word::Tables,
        name: "tables",
        form: "tables",
        short: "lists the tables that have rows",
        long: "Prints each table that has rows, and how many.",
        example: "tables",
    },
    Topic {
        word: Word::Begin,
        name: "begin",
        form: "begin",
        short: "begins a transaction",
        long: "Begins a transaction of at most 32 keys: what is written until its commit is kept together or not at all, and all reads
see the same moment.",
        example: "begin\n    put 1 6 \"tea\"\n    get 1 6\n    commit",
    },
    Topic {
        word: Word::Commit,
        name: "commit",
        form: "commit",
        short: "commits the transaction",
        long: "Ends the transaction and keeps what it wrote. committed is printed once that is durable.",
        example: "begin\n    put 1 7 \"jam\"\n    put 1 8 -\n    commit",
    },
    Topic {
        word: Word::Abort,
        name: "abort",
        form: "abort",
        short: "rolls the transaction back",
        long: "Ends the transaction, and keeps nothing of it.",
        example: "begin\n    del 1 7\n    abort",
    },
    Topic {
        word: Word::Stat,
        name: "stat",
        form: "stat",
        short: "prints the layout and how full it is",
        long: "Prints the layout of the store, how many rows and versions of rows it has, how many slots are free, and how many commits may
still be made.",
        example: "stat",
    },
    Topic {
        word: Word::Dump,
        name: "dump",
        form: "dump",
        short: "prints all rows, as load takes them",
        long: "Prints the rows of all tables at one moment, as lines that load takes.",
        example: "dump",
    },
    Topic {
        word: Word::Load,
        name: "load",
        form: "load",
        short: "puts the rows of the lines that follow",
        long: "Puts the rows of all further lines of the input: what dump prints, and lines TABLE KEY ROW, as wbl check prints them. It
ends at the first line that it can't take, and keeps what it has committed until then.",
        example: "kv old.img dump | kv new.img --slots 1000000 load",
    },
    Topic {
        word: Word::Timing,
        name: "timing",
        form: "timing on|off",
        short: "prints how long each later line takes",
        long: "Prints on standard error how long each later line took; off stops it.",
        example: "timing on",
    },
    Topic {
        word: Word::Help,
        name: "help",
        form: "help [WORD]",
        short: "explains the commands, or one",
        long: "Lists the commands, or explains one.",
        example: "help put",
    },
    Topic {
        word: Word::Quit,
        name: "quit",
        form: "quit",
        short: "ends, as the end of the input does",
        long: "Ends, as exit does. A transaction that is open is rolled back.",
        example: "quit",
    },
];

/// The command whose first word is this one, in capital letters or lower case.
pub fn find_word(name: &str) -> Option<Word> {
    if name.eq_ignore_ascii_case("exit") {
        return Some(Word::Quit);
    }
    match TOPICS
        .iter()
        .find(|topic| topic.name.eq_ignore_ascii_case(name))
    {
        Some(topic) => Some(topic.word),
        None => None,
    }
}

/// The explanation of a command.
pub fn topic_of(word: Word) -> Option<&'static Topic> {
    TOPICS.iter().find(|topic| topic.word == word)
}
