//! The program's words.

/// How many clients there may be: as many as a front gives passes, but for one that gives the tasks their jobs.
pub const MOST_CLIENTS: u16 = 63;

/// What clients do.
#[derive(Clone, Copy)]
pub struct Plan {
    /// How many clients there are, at once.
    pub clients: u16,
    /// How many workers run their quanta.
    pub workers: u16,
    /// How many slots each client runs.
    pub commands: u64,
    /// Whether receipts are printed as they come.
    pub print: bool,
}

/// What the program is to do.
#[derive(Clone, Copy)]
pub struct Words<'a> {
    /// Whether the file has a store.
    pub resumed: bool,
    /// The store's file.
    pub file: &'a str,
    /// What clients do there.
    pub plan: Plan,
}

/// The words after the file.
fn plan_of(words: &[String]) -> Option<Plan> {
    let print = match words.get(3) {
        None => false,
        Some(word) if word.as_str() == "print" => true,
        Some(_) => return None,
    };
    let clients = words.get(0)?.parse::<u16>().ok()?;
    if words.len() > 4 || clients > MOST_CLIENTS {
        return None;
    }
    Some(Plan {
        clients,
        workers: words.get(1)?.parse::<u16>().ok()?,
        commands: words.get(2)?.parse::<u64>().ok()?,
        print,
    })
}

/// The file of a session with every kind of call, if the words ask for one.
pub fn session_file(words: &[String]) -> Option<&str> {
    if words.len() == 3 && words[1].as_str() == "session" {
        Some(words[2].as_str())
    } else {
        None
    }
}

/// Reads the words, of which the first is the program's own name. `None` if they have no form.
pub fn read_words(words: &[String]) -> Option<Words<'_>> {
    let resumed = words.get(1)?.as_str() == "resume";
    let at = if resumed { 2 } else { 1 };
    let file = words.get(at)?.as_str();
    Some(Words {
        resumed,
        file,
        plan: plan_of(words.get(at + 1..)?)?,
    })
}
