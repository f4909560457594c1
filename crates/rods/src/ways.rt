// The two ways to ask, and what is told of a call.
use show::Row;
use std::{fmt, io};
use worn::{Begun, Question, Worn};

// The rows of a call: of the closed picture, and of the input.
pub type Pair = (&'static [u8], &'static [u8]);

// A rod that is asked about: the question that the calls gave, and the one that the calls from C gave.
#[derive(Clone, Copy)]
pub struct Rod {
    own: Question,
    from_c: Question,
}

// ---- what is told

// A question's extents, width by rows, limit, row and sum.
#[derive(Clone, Copy)]
struct Asked(Question);

impl fmt::Display for Asked {
    fn fmt<W: fmt::Write>(&self, f: &mut fmt::Formatter<W>) -> fmt::Result {
        let q = self.0;
        write!(f, "; {} {} {} {}", q.left, q.right, q.up, q.down)?;
        write!(f, ", {} by {}, limit {}", q.width, q.rows, q.limit)?;
        write!(f, ", row {}, sum {}", q.row, q.sum)
    }
}

// What a pair comes to.
#[derive(Clone, Copy)]
struct Said(Worn);

impl fmt::Display for Said {
    fn fmt<W: fmt::Write>(&self, f: &mut fmt::Formatter<W>) -> fmt::Result {
        match self.0 {
            Worn::Yes => write!(f, "yes"),
            Worn::No => write!(f, "no"),
            Worn::NotYet => write!(f, "not yet"),
            Worn::Refused(number) => write!(f, "refused {number}"),
        }
    }
}

// What a start gives.
#[derive(Clone, Copy)]
struct Started(Begun);

impl fmt::Display for Started {
    fn fmt<W: fmt::Write>(&self, f: &mut fmt::Formatter<W>) -> fmt::Result {
        write!(f, "{}{}", self.0.number, Asked(self.0.question))
    }
}

// ---- the calls

pub fn start(
    rt: &impl Print,
    name: &str,
    left: u8,
    right: u8,
    up: u8,
    down: u8,
    width: usize,
    rows: usize,
    limit: u64,
) -> io::Result<Rod> {
    let begun = worn::start(left, right, up, down, width, rows, limit);
    let linked = firmware::kelafshir_worn_start(left, right, up, down, width, rows, limit);
    println!(rt; "{name}: {}; from C {}", Started(begun), Started(linked))?;
    Ok(Rod {
        own: begun.question,
        from_c: linked.question,
    })
}

impl Rod {
    // A rod with a question that no call made.
    pub fn of(q: Question) -> Rod {
        Rod { own: q, from_c: q }
    }

    // A pair whose rows are named.
    pub fn named_pair(
        &mut self,
        rt: &impl Print,
        name: &str,
        closed: &[u8],
        input: &[u8],
    ) -> io::Result<()> {
        let asked = worn::pair(self.own, closed, input);
        let told = firmware::kelafshir_worn_pair(self.from_c, closed, input);
        self.own = asked.question;
        self.from_c = told.question;
        print!(rt; "{name}: {}{}", Said(asked.answer), Asked(asked.question))?;
        println!(rt;
            "; from C {} and {}{}",
            told.number,
            told.answer,
            Asked(told.question)
        )
    }

    // A pair whose rows are shown.
    pub fn pair(&mut self, rt: &impl Print, closed: &[u8], input: &[u8]) -> io::Result<()> {
        print!(rt; "closed{}, input{}", Row(closed), Row(input))?;
        self.named_pair(rt, "", closed, input)
    }

    // Pair after pair.
    pub fn pairs(&mut self, rt: &impl Print, pairs: &[Pair]) -> io::Result<()> {
        for &(closed, input) in pairs {
            self.pair(rt, closed, input)?;
        }
        Ok(())
    }
}

// A pair on a question that no call made.
pub fn state(
    rt: &impl Print,
    name: &str,
    q: Question,
    closed: &[u8],
    input: &[u8],
) -> io::Result<()> {
    print!(rt; "{name}, ")?;
    Rod::of(q).pair(rt, closed, input)
}
