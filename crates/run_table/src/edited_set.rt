// The set after an edit, known by the runs before it.
ghost use Rattle.std.specs.Prelude.{◌≡◌, ◌+◌, ◌<◌, ◌≤◌, [], ◌∷◌, ◌++◌, length};
ghost use Rattle.circle.specs.Runs.{begins, ends};
ghost use Rattle.arrayvec.specs.ArrayVec.{array_vec_len};
ghost use Rattle.rows.specs.Widths.{places_of};
ghost use Rattle.run_table.specs.EditedSets.{all_runs, nearer, nearest, run_at_first, runs_at_firsts, set_of};
ghost use Rattle.run_table.specs.NewRuns.{first_candidate, last_candidate};

use super::circle_steps::{number_after, number_before, steps_between};
use super::run::{MOST_RUNS, any_contains};
use arrayvec::ArrayVec;
use rows::edit::Edit;
use rows::range::Range;
use rows::width::Width;

// An edit makes at most one run more.
const MOST_AFTER_EDIT: usize = MOST_RUNS + 1;

// The runs before the edit, and the edit.
#[derive(Clone, Copy)]
pub(super) struct EditedSet<'a> {
    pub(super) runs: &'a [Range],
    pub(super) edit: Edit,
    pub(super) width: Width,
}

impl EditedSet<'_> {
    // Whether the number is in the set.
    fn contains(self, number: u64) -> bool
        ensures value { result ≡ set_of self.entry number }
    {
        self.edit.keeps(any_contains(self.runs, number), number)
    }

    // Whether a run begins at the number.
    fn begins(self, number: u64) -> bool
        ensures value { result ≡ begins (places_of self.entry.width) (set_of self.entry) number }
    {
        self.contains(number) && !self.contains(number_before(self.width, number))
    }

    // Whether a run ends at the number.
    fn ends(self, number: u64) -> bool
        ensures value { result ≡ ends (places_of self.entry.width) (set_of self.entry) number }
    {
        self.contains(number) && !self.contains(number_after(self.width, number))
    }

    // The one number at which a run may begin after the edit and did not before.
    fn new_first(self) -> u64
        ensures value { result ≡ first_candidate (places_of self.entry.width) self.entry.edit }
    {
        match self.edit {
            Edit::Add(range) => range.first,
            Edit::Drop(range) => number_after(self.width, range.last),
        }
    }

    // The one number at which a run may end after the edit and did not before.
    fn new_last(self) -> u64
        ensures value { result ≡ last_candidate (places_of self.entry.width) self.entry.edit }
    {
        match self.edit {
            Edit::Add(range) => range.last,
            Edit::Drop(range) => number_before(self.width, range.first),
        }
    }

    // The steps from one number up the circle to another, if a run ends there and they are fewer.
    fn fewer_steps(self, fewest: u64, from: u64, last: u64) -> u64
        ensures value { result ≡ nearer self.entry fewest from last }
    {
        if self.ends(last) {
            fewest.min(steps_between(self.width, from, last))
        } else {
            fewest
        }
    }

    // The fewest steps that lead from a number up the circle to the end of a run.
    fn steps_to_end(self, from: u64) -> u64
        ensures value { result ≡ nearest self.entry from }
    {
        let last = self.new_last();
        let mut fewest = self.fewer_steps(self.width.limit(), from, last);
        for run in self.runs {
            fewest = self.fewer_steps(fewest, from, run.last);
        }
        fewest
    }

    // The run that begins at a number: it goes to the nearest end.
    fn run_from(self, first: u64) -> Range
        ensures value { result ≡ run_at_first self.entry first }
    {
        let steps = self.steps_to_end(first);
        Range {
            first,
            last: first.wrapping_add(steps) % self.width.limit(),
        }
    }

    // Appends the run that begins at the number, if one does.
    fn keep(self, first: u64, out: &mut ArrayVec<Range, MOST_AFTER_EDIT>)
        requires room { array_vec_len out.old < 17 }
        ensures runs { out.new.items ≡ out.old.items ++ runs_at_firsts self.entry (first ∷ []) }
        ensures at_most_one { array_vec_len out.new ≤ array_vec_len out.old + 1 }
    {
        if self.begins(first) {
            out.push(self.run_from(first));
        }
    }

    // Puts the runs of the set in an empty list, in ascending order. The list is lent, so that it is not moved.
    pub(super) fn list_runs(self, out: &mut ArrayVec<Range, MOST_AFTER_EDIT>)
        requires none { out.old.items ≡ [] }
        requires few { length self.runs.now ≤ 16 }
        ensures runs { out.new.items ≡ all_runs self.entry }
    {
        let new = self.new_first();
        for run in self.runs {
            if run.first < new {
                self.keep(run.first, out);
            }
        }
        self.keep(new, out);
        for run in self.runs {
            if new < run.first {
                self.keep(run.first, out);
            }
        }
    }
}
