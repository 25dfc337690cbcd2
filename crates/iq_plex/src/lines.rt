//! Lines, each in its own transaction.
ghost use Rattle.std.specs.Prelude.{◌≡◌};
ghost use Rattle.iq_ast.specs.declared.statements.Statement.TheVariants as statements;
ghost use Rattle.iq_model.specs.Scripts.{IsRunnableLine};
ghost use Rattle.iq_render.specs.Placed.{IsPlacedSaid};
ghost use Rattle.iq_query.specs.Simple.{IsSimple};
ghost use Rattle.iq_plex.specs.Standing.{IsNext, EndsLine};
ghost use Rattle.iq_plex.specs.Doing.{Waits, Ends, CanRun};

use crate::plex::Plex;
use iq_ast::{Select, Statement, Write};
use iq_model::{Deed, Line, Reply};
use std::alloc::Global;

impl Plex {
    /// Runs the next line of the session as a transaction of its own, and answers it.
    pub fn run_line(&mut self, alloc: Global, line: &Line) -> Reply
        requires next { IsNext self.old line.now }
        requires runnable { IsRunnableLine line.now }
        ensures line { EndsLine self.old result self.new }
        ensures number { result.line ≡ line.now.number }
        ensures placed { IsPlacedSaid 1 1 result.said }
    {
        match &line.deed {
            Deed::Statement(statement) => match statement {
                Statement::Write(write) => self.run_write(alloc, line.number, statement, write),
                Statement::Select(select) => {
                    self.run_select(alloc, line.number, statement, select)
                }
                _ => unreachable!(),
            },
            Deed::Step(_) => unreachable!(),
        }
    }

    /// Runs a write as a transaction of its own.
    fn run_write(&mut self, alloc: Global, line: u32, statement: &Statement, write: &Write) -> Reply
        requires is { statement.now ≡ statements.Write write.now }
        requires run { CanRun write.now }
        requires waits { Waits self.old line statement.now }
        ensures line { Ends self.old result self.new }
        ensures number { result.line ≡ line }
        ensures placed { IsPlacedSaid 1 1 result.said }
    {
        if let Err(cause) = self.begin(line, statement) {
            return self.refuse(line, cause);
        }
        if let Err(cause) = self.check(alloc, line, write) {
            return self.refuse(line, cause);
        }
        if let Err(cause) = self.lock(line, write) {
            return self.refuse(line, cause);
        }
        match self.write(alloc, line, write) {
            Err(cause) => self.refuse(line, cause),
            Ok(rows) => self.commit(line, write, rows),
        }
    }

    /// Runs a query as a transaction of its own.
    fn run_select(
        &mut self,
        alloc: Global,
        line: u32,
        statement: &Statement,
        select: &Select,
    ) -> Reply
        requires is { statement.now ≡ statements.Select select.now }
        requires simple { IsSimple select.now }
        requires waits { Waits self.old line statement.now }
        ensures line { Ends self.old result self.new }
        ensures number { result.line ≡ line }
        ensures placed { IsPlacedSaid 1 1 result.said }
    {
        if let Err(cause) = self.begin(line, statement) {
            return self.refuse(line, cause);
        }
        match self.select(alloc, line, select) {
            Err(cause) => self.refuse(line, cause),
            Ok(answer) => self.end(line, select, answer),
        }
    }
}
