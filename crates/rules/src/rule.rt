// The fourteen commands, a rule each.
ghost use Rattle.std.specs.Prelude.{◌≡◌};
ghost use Rattle.rules.specs.Rules.{commands, rule_of};

// A command's body length, checksum included.
#[derive(Clone, Copy)]
pub enum Long {
    Is(usize),
    // 5 + 3k, k from 1 to 21: no missing length, so that this is no option
    Rowed,
}

// How a body names what the command works on.
#[derive(Clone, Copy)]
pub enum Names {
    Mask,
    Mode,
    Clock,
    Channel,
    TablePart,
    WholeTable,
    ErrorTable,
    // an error table, with a count byte that must be the number of rows sent
    ErrorRows,
}

// Which of a body's values are judged.
#[derive(Clone, Copy)]
pub enum Values {
    Anything,
    Constants,
    Rows,
    Mode,
    Clock,
}

// What is done: the stretch's bytes are shown, its signature is, or the body's bytes from an index on are stored there.
#[derive(Clone, Copy)]
pub enum Act {
    Show,
    Sign,
    Store(usize),
}

// What a command asks and does; echo is how many of the request's data bytes its reply repeats.
#[derive(Clone, Copy)]
pub struct Rule {
    pub long: Long,
    pub names: Names,
    pub values: Values,
    pub echo: usize,
    pub act: Act,
}

// The rule of a command, if the block serves it. A match and no table of rules: a table is laid on the stack at each call.
#[tactic(auto, unfolding(crate::specs::Rules::rule_of, crate::specs::Rules::commands))]
pub fn rule_of(command: u8) -> Option<Rule>
    ensures { result ≡ rule_of command commands }
{
    match command {
        50 => Some(shows(3, Names::Mask, 0)),
        51 => Some(stores(Long::Is(4), Names::Mask, Values::Anything, 1, 2)),
        53 => Some(stores(Long::Is(87), Names::Channel, Values::Constants, 0, 3)),
        54 => Some(shows(4, Names::Channel, 1)),
        55 => Some(signs(Names::Channel)),
        59 => Some(stores(Long::Is(133), Names::TablePart, Values::Anything, 2, 4)),
        60 => Some(shows(5, Names::TablePart, 2)),
        61 => Some(signs(Names::WholeTable)),
        62 => Some(stores(Long::Rowed, Names::ErrorRows, Values::Rows, 1, 3)),
        63 => Some(shows(4, Names::ErrorTable, 1)),
        64 => Some(signs(Names::ErrorTable)),
        76 => Some(stores(Long::Is(4), Names::Mode, Values::Mode, 1, 2)),
        77 => Some(stores(Long::Is(12), Names::Clock, Values::Clock, 0, 2)),
        78 => Some(shows(3, Names::Clock, 0)),
        _ => None,
    }
}

// A command that shows takes bodies of one length and judges no value.
fn shows(n: usize, names: Names, echo: usize) -> Rule
    ensures { result ≡ record { long = Long.Is n; names = names; values = Values.Anything; echo = echo; act = Act.Show } }
{
    Rule {
        long: Long::Is(n),
        names,
        values: Values::Anything,
        echo,
        act: Act::Show,
    }
}

// One that signs takes the number of an item alone, and echoes it.
fn signs(names: Names) -> Rule
    ensures { result ≡ record { long = Long.Is 4; names = names; values = Values.Anything; echo = 1; act = Act.Sign } }
{
    Rule {
        long: Long::Is(4),
        names,
        values: Values::Anything,
        echo: 1,
        act: Act::Sign,
    }
}

// One that stores does so from an index of the body on.
fn stores(long: Long, names: Names, values: Values, echo: usize, from: usize) -> Rule
    ensures { result ≡ record { long = long; names = names; values = values; echo = echo; act = Act.Store from } }
{
    Rule {
        long,
        names,
        values,
        echo,
        act: Act::Store(from),
    }
}
