//! Conditions that are made at random.
use iq_ast::{Cond, Op, Statement, Test, Write};
use iq_base::{Name, NoMemory, Value};
use iq_print::read_back;
use rand_core::utils::NextWord;
use rand_pcg::Pcg32;
use sqlite_items::{Boxed, Items};
use std::alloc::Global;
use std::test::Fail;

/// How many conditions are made.
const MANY: usize = 1_000;

/// How many parts each is made of, one over the other.
const PARTS: usize = 12;

fn name() -> Name {
    match Name::of("x") {
        Some(name) => name,
        None => unreachable!(),
    }
}

fn test(number: u32) -> Cond {
    Cond::Test(Test::Compare {
        column: name(),
        op: Op::Ge,
        value: Value::Int(i64::from(number)),
    })
}

/// The last of the conditions so far, or a test where there is none.
fn last(parts: &mut Items<Cond>, words: &mut Pcg32) -> Cond {
    match parts.pop() {
        Some(part) => part,
        None => test(words.next_word()),
    }
}

/// Two or three conditions.
fn members(
    alloc: Global,
    parts: &mut Items<Cond>,
    words: &mut Pcg32,
) -> Result<Items<Cond>, NoMemory> {
    let mut members = Items::new(alloc);
    members.push(test(words.next_word()))?;
    members.push(last(parts, words))?;
    if words.next_word() % 2 == 0 {
        members.push(last(parts, words))?;
    }
    Ok(members)
}

/// A test, or NOT, AND or OR over conditions so far.
fn part(alloc: Global, parts: &mut Items<Cond>, words: &mut Pcg32) -> Result<Cond, NoMemory> {
    Ok(match words.next_word() % 4 {
        0 => test(words.next_word()),
        1 => Cond::Not(Boxed::new(alloc, last(parts, words))?),
        2 => Cond::And(members(alloc, parts, words)?),
        _ => Cond::Or(members(alloc, parts, words)?),
    })
}

/// A condition of some parts.
fn condition(alloc: Global, words: &mut Pcg32) -> Result<Cond, NoMemory> {
    let mut parts = Items::new(alloc);
    for _ in 0..PARTS {
        let made = part(alloc, &mut parts, words)?;
        parts.push(made)?;
    }
    Ok(last(&mut parts, words))
}

#[test]
fn conditions_made_at_random_are_read_back(rt: HostRuntime) -> Result<(), Fail> {
    let alloc = rt.alloc();
    let mut words = Pcg32::new(42, 54);
    for _ in 0..MANY {
        let cond = match condition(alloc, &mut words) {
            Ok(cond) => cond,
            Err(_) => {
                assert!(rt; false, "memory is wanting");
                continue;
            }
        };
        let statement = Statement::Write(Write::Delete {
            table: name(),
            cond: Some(cond),
        });
        let made = format!(in alloc; "{statement:?}")?;
        match read_back(alloc, &statement) {
            Ok(read) => assert_eq!(rt; format!(in alloc; "{read:?}")?, made),
            Err(fault) => assert!(rt; false, "{made} is read as {fault:?}"),
        }
    }
    Ok(())
}
