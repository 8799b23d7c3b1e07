//! What a filter has, as it is compiled: its holds, tables, and where bytes of the buffer go.

use crate::survey::Survey;
use crate::tables::{TableCode, runs_of};
use author_text::tree::Filter;
use std::alloc::{AllocError, Global};

/// What a brigade is for.
#[derive(Clone, Copy)]
pub(crate) enum Brigade {
    /// It is not there.
    Unused,
    /// For the output.
    Output,
    /// For a hold of the request.
    Request,
    /// For a hold of the connection, or a table.
    Connection,
    /// For `n of h`.
    Spare,
}

/// A hold, as it is compiled.
#[derive(Clone, Copy)]
pub(crate) struct HoldCode {
    pub(crate) brigade: u8,
    pub(crate) is_conn: bool,
    pub(crate) limit: Option<u32>,
    /// The number that counts its bytes, where it has a limit.
    pub(crate) counter: Option<u8>,
}

/// What a filter has.
#[derive(Drop)]
pub(crate) struct Plan {
    /// How large the operand of a node can be.
    pub(crate) highest: Vec<u32>,
    pub(crate) holds: Vec<HoldCode>,
    pub(crate) tables: Vec<TableCode>,
    /// Where bytes of the buffer may go.
    pub(crate) targets: Vec<Option<usize>>,
    /// The number that says to which of them, where there are several.
    pub(crate) target: Option<u8>,
    /// How many brigades there are; a module has 8.
    pub(crate) count: usize,
    pub(crate) brigades: [Brigade; 8],
    /// The brigade for `n of h`, where there is one.
    pub(crate) spare: Option<u8>,
    /// Whether bytes may wait from one call to the next.
    pub(crate) has_waiting: bool,
    /// The cursors from this one on stand at tables.
    pub(crate) first_table: u8,
    /// The brigade of the table of each cursor.
    pub(crate) at_tables: [Option<u8>; 8],
}

impl Plan {
    /// The next brigade; a number over 7 where a module has no more.
    fn add_brigade(&mut self, brigade: Brigade) -> u8 {
        let number = self.count;
        if let Some(place) = self.brigades.get_mut(number) {
            *place = brigade;
        }
        self.count = number.saturating_add(1);
        number.min(100) as u8
    }

    fn add_holds(&mut self, filter: &Filter) -> Result<(), AllocError> {
        for hold in &filter.holds {
            let brigade = self.add_brigade(if hold.is_conn {
                Brigade::Connection
            } else {
                Brigade::Request
            });
            self.holds.push(HoldCode {
                brigade,
                is_conn: hold.is_conn,
                limit: hold.limit,
                counter: None,
            })?;
        }
        Ok(())
    }

    /// The cursor of a table that is read from a brigade.
    fn add_cursor(&mut self) -> u8 {
        let brigade = self.add_brigade(Brigade::Connection);
        let cursor = self.first_table.saturating_sub(1);
        if let Some(place) = self.at_tables.get_mut(usize::from(cursor)) {
            *place = Some(brigade);
        }
        self.first_table = cursor;
        cursor
    }

    fn add_tables(&mut self, alloc: Global, filter: &Filter) -> Result<(), AllocError> {
        for table in &filter.tables {
            let runs = runs_of(alloc, table.bytes.as_slice())?;
            let cursor = if table.is_read && runs.is_none() {
                Some(self.add_cursor())
            } else {
                None
            };
            self.tables.push(TableCode {
                len: table.bytes.len(),
                runs,
                cursor,
            })?;
        }
        Ok(())
    }

    /// The brigade from which a table is read, if it is.
    pub(crate) fn brigade_of_table(&self, table: usize) -> Option<u8> {
        let cursor = self.tables.get(table)?.cursor?;
        *self.at_tables.get(usize::from(cursor))?
    }

    /// What a filter has. `highest` says how large the operands of its nodes can be.
    pub(crate) fn new(
        alloc: Global,
        filter: &Filter,
        highest: Vec<u32>,
    ) -> Result<Plan, AllocError> {
        let mut survey = Survey::new(alloc);
        for handler in &filter.handlers {
            survey.add(handler.body.as_slice());
        }
        if survey.is_failed {
            return Err(AllocError);
        }
        let has_part = survey.has_part;
        let has_waiting = survey.has_waiting;
        let mut plan = Plan {
            highest,
            holds: Vec::new(alloc),
            tables: Vec::new(alloc),
            targets: survey.targets,
            target: None,
            count: 0,
            brigades: [Brigade::Unused; 8],
            spare: None,
            has_waiting,
            first_table: 8,
            at_tables: [None; 8],
        };
        let _output = plan.add_brigade(Brigade::Output);
        plan.add_holds(filter)?;
        if has_part {
            plan.spare = Some(plan.add_brigade(Brigade::Spare));
        }
        plan.add_tables(alloc, filter)?;
        Ok(plan)
    }
}
