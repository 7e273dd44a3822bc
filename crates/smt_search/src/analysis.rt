// What is learned from a conflict.
use crate::ledger::Link;
use crate::merits::Merits;
use crate::propagation::clause_of;
use crate::table::{NONE, Table};
use crate::trail::Trail;
use smt_clauses::{ClauseList, negation};
use std::alloc::{AllocError, Global};

/// What a variable is in the analysis of a conflict.
#[derive(Clone, Copy, PartialEq, Eq)]
enum Mark {
    /// It was not met.
    Free,
    /// Its literal is of the clause, or was of it on the way back.
    Source,
    /// Its literal follows from others of the clause.
    Implied,
    /// Its literal doesn't.
    Failed,
}

/// A literal whose reason is being gone through, up to a place.
#[derive(Clone, Copy)]
struct Frame {
    literal: u32,
    at: usize,
}

/// The clause that a conflict teaches, and the chain of clauses by which it follows.
#[derive(Drop)]
pub(crate) struct Analysis {
    pub(crate) clause: Vec<u32>,
    pub(crate) links: Vec<Link>,
    /// The level to go back to.
    pub(crate) back: u32,
    /// How many levels the clause's literals are of.
    pub(crate) blocks: u32,
    /// By variable.
    marks: Table<Mark>,
    touched: Vec<u32>,
    /// The links from the conflict back.
    main: Vec<Link>,
    /// The places in the trail of the clause's literals below the present level.
    lower: Vec<u32>,
    stack: Vec<Frame>,
    levels: Levels,
}

/// Which levels were met.
#[derive(Drop)]
struct Levels {
    /// By level, when it was last met.
    stamps: Table<u32>,
    now: u32,
}

impl Levels {
    /// Forgets all levels.
    fn clear(&mut self) {
        self.now = self.now.wrapping_add(1);
    }

    /// Whether the level of a literal was met.
    fn has(&self, trail: &Trail, literal: u32) -> bool {
        self.stamps.at(trail.levels.at(literal / 2)) == self.now
    }

    /// Meets the level of a literal.
    fn meet(&mut self, trail: &Trail, literal: u32) {
        self.stamps.put(trail.levels.at(literal / 2), self.now);
    }

    /// How many levels the literals of a clause are of.
    fn count(&mut self, trail: &Trail, clause: &[u32]) -> u32 {
        self.clear();
        let mut levels: u32 = 0;
        for literal in clause {
            if !self.has(trail, *literal) {
                self.meet(trail, *literal);
                levels = levels.wrapping_add(1);
            }
        }
        levels
    }
}

impl Analysis {
    /// Nothing learned yet, of so many variables.
    pub(crate) fn new(alloc: Global, variables: usize) -> Result<Analysis, AllocError> {
        Ok(Analysis {
            clause: Vec::new(alloc),
            links: Vec::new(alloc),
            back: 0,
            blocks: 0,
            marks: Table::new(alloc, Mark::Free, variables)?,
            touched: Vec::new(alloc),
            main: Vec::new(alloc),
            lower: Vec::new(alloc),
            stack: Vec::new(alloc),
            levels: Levels {
                stamps: Table::new(alloc, 0, variables.wrapping_add(1))?,
                now: 0,
            },
        })
    }

    /// Takes a literal into the clause. Whether it is of the present level.
    fn take(&mut self, trail: &mut Trail, literal: u32) -> Result<bool, AllocError> {
        let variable = literal / 2;
        let level = trail.levels.at(variable);
        if level == 0 || self.marks.at(variable) != Mark::Free {
            return Ok(false);
        }
        self.marks.put(variable, Mark::Source);
        self.touched.push(variable)?;
        trail.order.bump(variable);
        if level < trail.level() {
            self.lower.push(trail.places.at(variable))?;
            return Ok(false);
        }
        Ok(true)
    }

    /// Takes the literals of a clause but this one. How many of them are of the present level.
    fn resolve(
        &mut self,
        clauses: &ClauseList,
        trail: &mut Trail,
        place: u32,
        implied: u32,
    ) -> Result<u32, AllocError> {
        let mut open: u32 = 0;
        for literal in clause_of(clauses, place) {
            if *literal != implied && self.take(trail, *literal)? {
                open = open.wrapping_add(1);
            }
        }
        Ok(open)
    }

    /// The last place of the trail before this one whose variable is marked.
    fn last_marked(&self, trail: &Trail, before: u32) -> u32 {
        for place in (0..before).rev() {
            if self.marks.at(trail.literals.at(place) / 2) != Mark::Free {
                return place;
            }
        }
        0
    }

    /// Notes that a learned clause was used.
    fn weigh(&mut self, clauses: &ClauseList, trail: &Trail, merits: &mut Merits, place: u32) {
        if merits.is_light(place) {
            let blocks = self.levels.count(trail, clause_of(clauses, place));
            merits.improve(place, blocks);
        }
    }

    /// Goes back from a conflict to the first literal of the present level by which it comes. That
    /// literal.
    fn first_point(
        &mut self,
        clauses: &ClauseList,
        trail: &mut Trail,
        merits: &mut Merits,
        conflict: u32,
    ) -> Result<u32, AllocError> {
        let mut place = conflict;
        let mut implied = NONE;
        let mut open: u32 = 0;
        let mut before = trail.len();
        for _ in 0..=trail.len() {
            self.weigh(clauses, trail, merits, place);
            let more = self.resolve(clauses, trail, place, implied)?;
            self.main.push(link_of(clauses, place, implied))?;
            open = open.wrapping_add(more).wrapping_sub(1);
            before = self.last_marked(trail, before);
            implied = trail.literals.at(before);
            if open == 0 {
                break;
            }
            place = trail.reasons.at(implied / 2);
        }
        Ok(implied)
    }

    /// The next literal of a reason that isn't known to follow, from a place on, and the place
    /// behind it. `NONE` where there is none left.
    fn next_open(&self, clauses: &ClauseList, trail: &Trail, frame: Frame) -> Frame {
        let clause = clause_of(clauses, trail.reasons.at(frame.literal / 2));
        for at in frame.at..clause.len() {
            let literal = clause[at];
            if literal / 2 != frame.literal / 2 && !self.is_settled(trail, literal) {
                return Frame {
                    literal,
                    at: at + 1,
                };
            }
        }
        Frame {
            literal: NONE,
            at: 0,
        }
    }

    /// Whether a literal is false with nothing decided, or is known to follow.
    fn is_settled(&self, trail: &Trail, literal: u32) -> bool {
        match self.marks.at(literal / 2) {
            Mark::Source => true,
            Mark::Implied => true,
            _ => trail.levels.at(literal / 2) == 0,
        }
    }

    /// Marks a literal.
    fn mark(&mut self, literal: u32, mark: Mark) -> Result<(), AllocError> {
        if self.marks.at(literal / 2) == Mark::Free {
            self.touched.push(literal / 2)?;
            self.marks.put(literal / 2, mark);
        }
        Ok(())
    }

    /// Whether a literal may follow from the others: it has a reason, and there are others of its
    /// level.
    fn may_follow(&self, trail: &Trail, literal: u32) -> bool {
        self.marks.at(literal / 2) != Mark::Failed
            && trail.reasons.at(literal / 2) != NONE
            && self.levels.has(trail, literal)
    }

    /// Gives up: no literal of the stack follows.
    fn fail(&mut self) -> Result<(), AllocError> {
        for _ in 0..self.stack.len() {
            if let Some(frame) = self.stack.pop() {
                self.mark(frame.literal, Mark::Failed)?;
            }
        }
        Ok(())
    }

    /// Notes that a literal follows, and by which reason.
    fn imply(&mut self, trail: &Trail, literal: u32) -> Result<(), AllocError> {
        self.mark(literal, Mark::Implied)?;
        let place = trail.reasons.at(literal / 2);
        self.links.push(Link {
            place,
            literal: negation(literal),
        })?;
        Ok(())
    }

    /// Whether a false literal of the clause follows from the others. Notes the reasons by which it
    /// does.
    fn follows(
        &mut self,
        clauses: &ClauseList,
        trail: &Trail,
        literal: u32,
    ) -> Result<bool, AllocError> {
        if trail.reasons.at(literal / 2) == NONE {
            return Ok(false);
        }
        self.stack.clear();
        self.stack.push(Frame { literal, at: 0 })?;
        for _ in 0..2000 {
            let Some(frame) = self.stack.pop() else {
                return Ok(true);
            };
            let next = self.next_open(clauses, trail, frame);
            if next.literal == NONE {
                self.imply(trail, frame.literal)?;
                continue;
            }
            self.stack.push(Frame {
                literal: frame.literal,
                at: next.at,
            })?;
            if !self.may_follow(trail, next.literal) {
                break;
            }
            self.stack.push(Frame {
                literal: next.literal,
                at: 0,
            })?;
        }
        self.fail()?;
        Ok(false)
    }

    /// The literal of the clause whose negation stands at a place of the trail.
    fn lower_at(&self, trail: &Trail, at: usize) -> u32 {
        match self.lower.get(at) {
            Some(place) => negation(trail.literals.at(*place)),
            None => NONE,
        }
    }

    /// Puts the literals that don't follow from others behind the first, each before those that
    /// follow from it.
    fn minimize(&mut self, clauses: &ClauseList, trail: &Trail) -> Result<(), AllocError> {
        self.lower.sort_unstable();
        self.levels.clear();
        for at in 0..self.lower.len() {
            let literal = self.lower_at(trail, at);
            self.levels.meet(trail, literal);
        }
        for at in 0..self.lower.len() {
            let literal = self.lower_at(trail, at);
            if !self.follows(clauses, trail, literal)? {
                self.clause.push(literal)?;
            }
        }
        Ok(())
    }

    /// Finds the level to go back to, and puts a literal of it second.
    fn place_second(&mut self, trail: &Trail) {
        let len = self.clause.len();
        if len > 1 {
            let last = self.clause[len - 1];
            let second = self.clause[1];
            self.clause[1] = last;
            self.clause[len - 1] = second;
            self.back = trail.levels.at(last / 2);
        }
    }

    /// Puts the links from the conflict back behind the others, the conflict last.
    fn join_links(&mut self) -> Result<(), AllocError> {
        for _ in 0..self.main.len() {
            if let Some(link) = self.main.pop() {
                self.links.push(link)?;
            }
        }
        Ok(())
    }

    /// Takes all marks away.
    fn clear(&mut self) {
        for _ in 0..self.touched.len() {
            if let Some(variable) = self.touched.pop() {
                self.marks.put(variable, Mark::Free);
            }
        }
        self.clause.clear();
        self.links.clear();
        self.main.clear();
        self.lower.clear();
        self.back = 0;
    }

    /// Learns from a conflict at a level above 0: `clause`, whose first literal turns true behind
    /// `back`, and `links`.
    pub(crate) fn learn(
        &mut self,
        clauses: &ClauseList,
        trail: &mut Trail,
        merits: &mut Merits,
        conflict: u32,
    ) -> Result<(), AllocError> {
        self.clear();
        let point = self.first_point(clauses, trail, merits, conflict)?;
        self.clause.push(negation(point))?;
        self.minimize(clauses, trail)?;
        self.place_second(trail);
        self.blocks = self.levels.count(trail, self.clause.as_slice());
        self.join_links()?;
        trail.order.decay();
        Ok(())
    }
}

/// A clause as a link: by the literal that it implies, or by its first one where there is none.
fn link_of(clauses: &ClauseList, place: u32, implied: u32) -> Link {
    match clause_of(clauses, place).first() {
        Some(first) if implied == NONE => Link {
            place,
            literal: *first,
        },
        _ => Link {
            place,
            literal: implied,
        },
    }
}
