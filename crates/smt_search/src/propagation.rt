// What follows in the search from single clauses.
use crate::table::{NONE, Table};
use crate::trail::{Trail, Value};
use smt_clauses::{ClauseList, negation};
use std::alloc::{AllocError, Global};
use std::mem;

/// A clause that is to be looked at where a literal turns false, and one of its other literals.
#[derive(Clone, Copy)]
struct Watch {
    place: u32,
    blocker: u32,
}

/// Which clauses watch a literal.
#[derive(Drop)]
pub(crate) struct Watches {
    alloc: Global,
    lists: Vec<Vec<Watch>>,
    /// By clause, its two watched literals in one word, by exclusive or.
    pairs: Table<u32>,
}

/// What came of a clause at its entry.
#[derive(Clone, Copy)]
pub(crate) enum Entered {
    /// It is watched or true.
    Rests,
    /// It has one literal left.
    Gives(u32),
    /// It has none left.
    Clashes,
}

/// What came of a clause that watches a literal which turned false.
#[derive(Clone, Copy)]
enum Visited {
    /// It stays in the list, with this literal, which is true.
    Stays(u32),
    /// It watches another literal.
    Leaves,
    /// It has no literal left.
    Clashes,
}

/// The clause at a place; with no literal where there is none.
pub(crate) fn clause_of(clauses: &ClauseList, place: u32) -> &[u32] {
    match clauses.get(place as usize) {
        Some(clause) => clause,
        None => &[],
    }
}

/// A literal of a clause other than this one that isn't false, `NONE` where there is none.
fn other_open(clause: &[u32], trail: &Trail, other: u32) -> u32 {
    for literal in clause {
        if *literal != other && trail.values.at(*literal) != Value::False {
            return *literal;
        }
    }
    NONE
}

impl Watches {
    /// Nothing is watched, of so many literals.
    pub(crate) fn new(alloc: Global, literals: usize) -> Result<Watches, AllocError> {
        let mut lists = Vec::new(alloc);
        for _ in 0..literals {
            lists.push(Vec::new(alloc))?;
        }
        let pairs = Table::new(alloc, 0, 0)?;
        Ok(Watches {
            alloc,
            lists,
            pairs,
        })
    }

    /// Nothing is watched any more.
    pub(crate) fn clear(&mut self) {
        for place in 0..self.lists.len() {
            if let Some(list) = self.lists.get_mut(place) {
                list.clear();
            }
        }
        self.pairs.truncate(0);
    }

    /// Lets a clause be looked at where a literal turns false.
    fn watch(&mut self, literal: u32, place: u32, blocker: u32) -> Result<(), AllocError> {
        if let Some(list) = self.lists.get_mut(literal as usize) {
            list.push(Watch { place, blocker })?;
        }
        Ok(())
    }

    /// Lets the next clause watch two literals.
    pub(crate) fn attach(&mut self, place: u32, one: u32, other: u32) -> Result<(), AllocError> {
        self.pairs.push(one ^ other)?;
        self.watch(one, place, other)?;
        self.watch(other, place, one)
    }

    /// Lets the next clause watch nothing.
    pub(crate) fn skip(&mut self) -> Result<(), AllocError> {
        self.pairs.push(0)
    }

    /// The next clause, at a time when nothing is decided.
    pub(crate) fn enter(
        &mut self,
        clause: &[u32],
        place: u32,
        trail: &Trail,
    ) -> Result<Entered, AllocError> {
        let one = other_open(clause, trail, NONE);
        let other = other_open(clause, trail, one);
        if one == NONE {
            self.skip()?;
            return Ok(Entered::Clashes);
        }
        if other == NONE {
            self.skip()?;
            return Ok(if trail.values.at(one) == Value::True {
                Entered::Rests
            } else {
                Entered::Gives(one)
            });
        }
        self.attach(place, one, other)?;
        Ok(Entered::Rests)
    }

    /// Visits a clause that watches a literal which turned false, and whose blocker isn't true. The
    /// literal that is true or may be, or `NONE` where the clause goes to another list.
    fn look(
        &mut self,
        clauses: &ClauseList,
        trail: &Trail,
        falsified: u32,
        place: u32,
    ) -> Result<u32, AllocError> {
        let other = self.pairs.at(place) ^ falsified;
        if trail.values.at(other) == Value::True {
            return Ok(other);
        }
        let open = other_open(clause_of(clauses, place), trail, other);
        if open == NONE {
            return Ok(other);
        }
        self.pairs.put(place, open ^ other);
        self.watch(open, place, other)?;
        Ok(NONE)
    }

    /// Visits the clause of a watch. What is watched instead, `None` where the clause goes to
    /// another list.
    fn visit(
        &mut self,
        clauses: &ClauseList,
        trail: &mut Trail,
        falsified: u32,
        watch: Watch,
    ) -> Result<Visited, AllocError> {
        let blocker = self.look(clauses, trail, falsified, watch.place)?;
        if blocker == NONE {
            return Ok(Visited::Leaves);
        }
        match trail.values.at(blocker) {
            Value::True => {}
            Value::False => return Ok(Visited::Clashes),
            Value::Open => trail.assign(blocker, watch.place)?,
        }
        Ok(Visited::Stays(blocker))
    }

    /// Visits the clauses of a list. The place of one with no literal left, else `NONE`.
    fn visit_all(
        &mut self,
        clauses: &ClauseList,
        trail: &mut Trail,
        falsified: u32,
        list: &mut Vec<Watch>,
    ) -> Result<u32, AllocError> {
        let mut stay: usize = 0;
        let mut conflict = NONE;
        for at in 0..list.len() {
            let Some(seen) = list.get(at) else {
                break;
            };
            let mut watch = *seen;
            if conflict == NONE && trail.values.at(watch.blocker) != Value::True {
                match self.visit(clauses, trail, falsified, watch)? {
                    Visited::Leaves => continue,
                    Visited::Stays(blocker) => watch.blocker = blocker,
                    Visited::Clashes => conflict = watch.place,
                }
            }
            if let Some(slot) = list.get_mut(stay) {
                *slot = watch;
            }
            stay = stay.wrapping_add(1);
        }
        list.truncate(stay);
        Ok(conflict)
    }

    /// Visits the clauses that watch a literal which is false. The place of one with no literal
    /// left, else `NONE`.
    fn falsify(
        &mut self,
        clauses: &ClauseList,
        trail: &mut Trail,
        falsified: u32,
    ) -> Result<u32, AllocError> {
        let Some(slot) = self.lists.get_mut(falsified as usize) else {
            return Ok(NONE);
        };
        let mut list = mem::replace(slot, Vec::new(self.alloc));
        let conflict = self.visit_all(clauses, trail, falsified, &mut list)?;
        if let Some(slot) = self.lists.get_mut(falsified as usize) {
            *slot = list;
        }
        Ok(conflict)
    }

    /// Takes all true literals to their end. The place of a clause with no literal left, else
    /// `NONE`.
    pub(crate) fn propagate(
        &mut self,
        clauses: &ClauseList,
        trail: &mut Trail,
    ) -> Result<u32, AllocError> {
        for _ in 0..=self.lists.len() {
            if trail.head >= trail.len() {
                return Ok(NONE);
            }
            let falsified = negation(trail.literals.at(trail.head));
            trail.head = trail.head.wrapping_add(1);
            let conflict = self.falsify(clauses, trail, falsified)?;
            if conflict != NONE {
                trail.head = trail.len();
                return Ok(conflict);
            }
        }
        Ok(NONE)
    }
}
