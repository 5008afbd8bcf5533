//! Questions that are filled, and those that are refused.
use league::facts::{Kind, Link, Name};
use league::question::Question;
use league::questions::{Atom, Term};
use league::roles::Role;

/// Fills a question and prints what came of it, and what the question then has.
fn show(rt: &HostRuntime, title: &str, answers: u16, atoms: &[Atom]) -> anyhow::Result<()> {
    let mut question = Question::new();
    match question.fill(answers, atoms) {
        Ok(()) => println!(rt; "# {title}: ok")?,
        Err(fault) => {
            let number = fault.number();
            let place = fault.place().map_or(0, |place| place.0);
            println!(rt; "# {title}: {number} at {place}")?;
        }
    }
    let k = question.answers();
    let count = question.atoms().len();
    let width = question.width();
    println!(rt; "{k} answer variables, {count} atoms, {width} terms")?;
    Ok(())
}

/// Shows each question: a title, the number of answer variables, and the atoms.
fn show_all(rt: &HostRuntime, cases: &[(&str, u16, &[Atom])]) -> anyhow::Result<()> {
    for (title, answers, atoms) in cases {
        show(rt, title, *answers, atoms)?;
    }
    Ok(())
}

/// A kind with a variable.
fn is(kind: u16, variable: u16) -> Atom {
    Atom::Is(Kind(kind), Term::Variable(variable))
}

/// A kind with a name.
fn of(kind: u16, name: u16) -> Atom {
    Atom::Is(Kind(kind), Term::Name(Name(name)))
}

/// A link read backward with two terms.
fn joins(link: u16, from: Term, to: Term) -> Atom {
    Atom::Joins(Role::Backward(Link(link)), from, to)
}

/// How many atoms and answer variables there may be.
fn counts(rt: &HostRuntime) -> anyhow::Result<()> {
    let cases: [(&str, u16, &[Atom]); 7] = [
        ("sixteen atoms", 1, &[is(1, 0); 16]),
        ("seventeen atoms", 1, &[is(1, 0); 17]),
        ("seventeen atoms, one out of range", 1, &[is(64, 0); 17]),
        ("no atom", 0, &[]),
        ("k = 4", 4, &[is(1, 0), is(1, 1), is(1, 2), is(63, 3)]),
        ("k = 5", 5, &[is(64, 0)]),
        ("k = 65535", 65_535, &[is(1, 0)]),
    ];
    show_all(rt, &cases)
}

/// Which numbers and terms an atom may have.
fn numbers(rt: &HostRuntime) -> anyhow::Result<()> {
    let v0 = Term::Variable(0);
    let v9 = Term::Variable(9);
    let n1024 = Term::Name(Name(1024));
    let cases: [(&str, u16, &[Atom]); 6] = [
        ("v8", 0, &[is(63, 7), is(63, 8)]),
        ("name 1024", 0, &[of(1, 1023), joins(31, v0, n1024)]),
        ("link 32 before name 1024", 0, &[joins(32, n1024, v9)]),
        (
            "nine terms",
            1,
            &[
                is(1, 1),
                is(1, 2),
                is(1, 3),
                is(1, 4),
                is(1, 5),
                is(1, 6),
                is(1, 7),
                of(1, 0),
                of(1, 1),
            ],
        ),
        (
            "eight terms",
            1,
            &[
                is(1, 1),
                is(1, 2),
                is(1, 3),
                is(1, 4),
                is(1, 5),
                is(1, 6),
                is(1, 0),
                of(1, 0),
            ],
        ),
        ("an answer variable in no atom", 2, &[is(1, 0), is(1, 2)]),
    ];
    show_all(rt, &cases)
}

pub(crate) fn all(rt: &HostRuntime) -> anyhow::Result<()> {
    counts(rt)?;
    numbers(rt)
}
