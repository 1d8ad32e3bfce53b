//! Reports in memory.
ghost use Rattle.std.specs.Prelude.{◌≡◌, [], IfOk};
ghost use Rattle.hs_stream.specs.Collecting.{with_report, Collects};

use hs_base::{ExprId, Report};
use hs_reports::Events;
use std::alloc::{AllocError, Global};
use std::marker::Model;

/// Keeps reports in a list, the first ones up to its room, and takes no memory for one that comes.
#[derive(Drop)]
pub struct Collected {
    reports: Vec<Report>,
    // The most reports. There is capacity for them from the start.
    room: usize,
}

impl Model for Collected {
    ghost use Rattle.std.specs.Prelude.{◌≤◌, length, vec_capacity};
    ghost use Rattle.hs_stream.specs.Collecting.{Collection};

    ghost Value = { Collection };

    ghost view = { λ c. record { reports = c.reports.items; room = c.room } };

    ghost invariant = { λ c. (length c.reports.items ≤ c.room) × (c.room ≤ vec_capacity c.reports) };
}

impl Collected {
    /// An empty list with room for `room` reports. The error is want of memory.
    ///
    /// # Cost
    ///
    /// It takes 16 bytes for each report that it has room for.
    ///
    /// # Examples
    ///
    /// ```
    /// let mut told = Collected::new(alloc, 100)?;
    /// ```
    pub fn new(alloc: Global, room: usize) -> Result<Self, AllocError>
        ensures { IfOk result (λ c. c ≡ record { reports = []; room = room }) }
    {
        Ok(Collected {
            reports: Vec::with_capacity(alloc, room)?,
            room,
        })
    }

    /// The reports so far, in the order in which they came.
    ///
    /// # Cost
    ///
    /// They are lent: nothing is copied, and it takes no memory.
    ///
    /// # Examples
    ///
    /// ```
    /// for report in told.reports() {
    ///     println!(rt; "{} {}", report.id.0, report.to)?;
    /// }
    /// ```
    pub fn reports(&self) -> &[Report]
        ensures { result.now ≡ self.now.reports }
    {
        &self.reports
    }

    /// For how many reports there is room.
    ///
    /// # Cost
    ///
    /// None.
    ///
    /// # Examples
    ///
    /// ```
    /// let is_full = told.reports().len() == told.room();
    /// ```
    pub fn room(&self) -> usize
        ensures { result ≡ self.now.room }
    {
        self.room
    }

    /// Drops all reports. The room stays.
    ///
    /// # Cost
    ///
    /// It takes no memory.
    ///
    /// # Examples
    ///
    /// ```
    /// told.clear();
    /// ```
    pub fn clear(&mut self)
        ensures { self.new ≡ record { reports = []; room = self.old.room } }
    {
        self.reports.clear();
    }
}

impl Events for Collected {
    ghost tells = { Collects };

    fn report(&mut self, id: ExprId, to: u64)
        ensures { self.new ≡ with_report self.old id.0 to }
    {
        if self.reports.len() < self.room {
            self.reports.push(Report { id, to }).unwrap();
        }
    }
}
