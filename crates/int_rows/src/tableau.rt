ghost use Rattle.std.specs.Prelude.{◌≡◌, ◌+◌, ◌<◌, ◌≤◌, ◌^◌, ◌↔◌, ◌++◌, ◌∷◌, [], length, nat_abs, pos, take, true, slice_set, IfOk, OnOk, IfErr, OnErr, IsErrOf, Some};
ghost use Rattle.std.specs.List.{list_all};
ghost use Rattle.base.specs.Limits.{most_rows};
ghost use Rattle.lin_atoms.specs.Linear.{lin_is_below};
ghost use Rattle.int_rows.specs.Basis.{IsWideRow, bound, in_order};
ghost use Rattle.int_rows.specs.Pushed.{HasRoom, IsFirstWide, next_equation, pushed, widened};
ghost use Rattle.int_rows.specs.Ready.{bound_fits};
ghost use Rattle.int_rows.specs.Rows.{are_short, entry};
ghost use Rattle.int_rows.specs.Space.{SameSpace};
ghost use Rattle.int_rows.specs.Table.{HasWide, IsTable, basic_at, first_table, pivoted, row_at, width};

use crate::copies::{copy_bounds, copy_numbers, copy_rows};
use crate::equation::{equations, no_bounds, numbers};
use crate::pivoting::{first_wide, pivot_rows};
use crate::pushing::{pushed_columns, pushed_rows};
use crate::stop::{PushStop, RowStop, RowWide};
use base::{MOST_ROWS, Memory};
use lin_atoms::Lin;
use std::alloc::Global;
use std::marker::Model;

/// The rows of a simplex tableau, each an equation solved for its basic variable, and a lower and
/// an upper bound for each variable, where it has one.
#[derive(Drop)]
pub struct Tableau {
    variables: usize,
    rows: Vec<Vec<i64>>,
    basic: Vec<usize>,
    lower: Vec<Option<i128>>,
    upper: Vec<Option<i128>>,
}

impl Model for Tableau {
    ghost use Rattle.std.specs.Prelude.{map};
    ghost use Rattle.int_rows.specs.Table.{IsTable, Table};

    ghost Value = { Table };

    ghost view = { λ t. record { variables = t.variables; rows = map (λ r. r.items) t.rows.items; basic = t.basic.items; lower = t.lower.items; upper = t.upper.items } };

    ghost invariant = { λ t. IsTable (record { variables = t.variables; rows = map (λ r. r.items) t.rows.items; basic = t.basic.items; lower = t.lower.items; upper = t.upper.items }) };
}

impl Tableau {
    /// Says nothing: that the rows are solved for their basic variables, for whoever needs it.
    pub fn table_law(&self)
        ensures { IsTable self.now }
    {
        let _variables = self.variables;
    }

    /// How many rows there are, which is the number of forms.
    pub fn rows(&self) -> usize
        ensures { result ≡ length self.now.rows }
    {
        self.rows.len()
    }

    /// How many variables are outside the basis, which is the number of variables that are no
    /// slacks.
    pub fn columns(&self) -> usize
        ensures { result ≡ self.now.variables }
    {
        self.variables
    }

    /// The basic variable of a row.
    pub fn basic(&self, row: usize) -> usize
        requires { row < length self.now.rows }
        ensures { result ≡ basic_at self.now.basic row }
    {
        self.basic[row]
    }

    /// The entry of a variable in a row.
    pub fn entry(&self, row: usize, variable: usize) -> i64
        requires row { row < length self.now.rows }
        requires variable { variable < width self.now }
        ensures { result ≡ entry (row_at self.now.rows row) variable }
    {
        self.rows[row][variable]
    }

    /// The entries of a row, in order of the variables' numbers.
    pub fn row(&self, row: usize) -> &[i64]
        requires { row < length self.now.rows }
        ensures { result.now ≡ row_at self.now.rows row }
    {
        self.rows[row].as_slice()
    }

    /// The lower bound of a variable.
    pub fn lower(&self, variable: usize) -> Option<i128>
        requires { variable < width self.now }
        ensures { result ≡ bound self.now.lower variable }
    {
        self.lower[variable]
    }

    /// The upper bound of a variable.
    pub fn upper(&self, variable: usize) -> Option<i128>
        requires { variable < width self.now }
        ensures { result ≡ bound self.now.upper variable }
    {
        self.upper[variable]
    }

    /// Gives a variable a lower bound, in place of the one it has.
    pub fn set_lower(&mut self, variable: usize, bound: i128)
        requires variable { variable < width self.old }
        requires long { nat_abs bound < 2 ^ 64 }
        ensures { self.new ≡ record self.old { lower = slice_set self.old.lower variable (Some bound) } }
    {
        self.lower[variable] = Some(bound);
    }

    /// Gives a variable an upper bound, in place of the one it has.
    pub fn set_upper(&mut self, variable: usize, bound: i128)
        requires variable { variable < width self.old }
        requires long { nat_abs bound < 2 ^ 64 }
        ensures { self.new ≡ record self.old { upper = slice_set self.old.upper variable (Some bound) } }
    {
        self.upper[variable] = Some(bound);
    }

    /// Gives a variable the two bounds, or none, in place of those it has.
    pub fn set_bounds(&mut self, variable: usize, lower: Option<i128>, upper: Option<i128>)
        requires variable { variable < width self.old }
        requires lower { bound_fits lower ≡ true }
        requires upper { bound_fits upper ≡ true }
        ensures { self.new ≡ record self.old { lower = slice_set self.old.lower variable lower; upper = slice_set self.old.upper variable upper } }
    {
        self.lower[variable] = lower;
        self.upper[variable] = upper;
    }

    /// An equal tableau.
    pub fn copy(&self, alloc: Global) -> Result<Tableau, Memory>
        ensures { IfOk result (λ copied. copied ≡ self.now) }
    {
        let variables = self.variables;
        let rows = copy_rows(alloc, self.rows.as_slice())?;
        let basic = copy_numbers(alloc, self.basic.as_slice())?;
        let lower = copy_bounds(alloc, self.lower.as_slice())?;
        let upper = copy_bounds(alloc, self.upper.as_slice())?;
        Ok(Tableau {
            variables,
            rows,
            basic,
            lower,
            upper,
        })
    }

    /// Solves a row for another variable, which becomes basic in it, and frees the other rows of
    /// that variable. The rows span the same space. The tableau stays as it is where a row would
    /// have an entry without room.
    pub fn pivot(&mut self, row: usize, column: usize) -> Result<(), RowWide>
        requires row { row < length self.old.rows }
        requires column { column < width self.old }
        requires entry { entry (row_at self.old.rows row) column ≡ pos 0 → ⊥ }
        ensures pivoted { IfOk result (λ _. self.new ≡ record self.old { rows = pivoted row column self.old.rows; basic = slice_set self.old.basic row column }) }
        ensures room { OnOk result (list_all are_short (pivoted row column self.old.rows) ≡ true) }
        ensures wide { IfErr result (λ w. HasWide (pivoted row column self.old.rows) w.row w.entry) }
        ensures evidence { IfErr result (λ w. IsWideRow (width self.old) self.old.rows (in_order (width self.old) (slice_set self.old.basic row column)) w.entry) }
        ensures space { SameSpace self.old.rows self.new.rows }
        ensures unchanged { OnErr result (self.new ≡ self.old) }
    {
        if let Some(wide) = first_wide(self.rows.as_slice(), row, column) {
            return Err(wide);
        }
        pivot_rows(self.rows.as_mut_slice(), row, column);
        self.basic[row] = column;
        Ok(())
    }

    /// Takes one form more, without its constant, also after pivots. Its slack has the next number, is
    /// basic in the new last row, and has no bounds. The rows then span the space of the old ones,
    /// which are 0 in the slack, and of the form's equation. `Wide` says how many of the rows free the
    /// equation of their basic variables when it first has an entry without room, and the entry. The
    /// tableau stays as it is after each refusal.
    pub fn push(&mut self, alloc: Global, lin: &Lin) -> Result<(), PushStop>
        requires { lin_is_below self.old.variables lin.now ≡ true }
        ensures pushed { OnOk result (self.new ≡ pushed lin.now self.old) }
        ensures room { OnOk result (HasRoom self.old.basic (widened self.old.rows) (next_equation self.old lin.now)) }
        ensures space { OnOk result (SameSpace (widened self.old.rows ++ next_equation self.old lin.now ∷ []) self.new.rows) }
        ensures wide { (w : RowWide) → IsErrOf result (PushStop.Wide w) → IsFirstWide self.old.basic (widened self.old.rows) (next_equation self.old lin.now) w.row w.entry }
        ensures evidence { (w : RowWide) → IsErrOf result (PushStop.Wide w) → IsWideRow (width self.old + 1) (take w.row (widened self.old.rows) ++ next_equation self.old lin.now ∷ [])
            (in_order (width self.old + 1) (take w.row self.old.basic ++ width self.old ∷ [])) w.entry }
        ensures too_many { IsErrOf result PushStop.TooMany ↔ (length self.old.rows ≡ most_rows) }
        ensures unchanged { OnErr result (self.new ≡ self.old) }
    {
        if self.rows.len() >= MOST_ROWS {
            return Err(PushStop::TooMany);
        }
        let _constant = lin.constant();
        let slack = self.lower.len();
        let (rows, basic) = (self.rows.as_slice(), self.basic.as_slice());
        let rows = match pushed_rows(alloc, rows, basic, slack, lin) {
            Ok(rows) => rows,
            Err(stop) => return Err(stop),
        };
        let (basic, lower, upper) = pushed_columns(
            alloc,
            self.basic.as_slice(),
            slack,
            self.lower.as_slice(),
            self.upper.as_slice(),
        )?;
        self.rows = rows;
        self.basic = basic;
        self.lower = lower;
        self.upper = upper;
        Ok(())
    }

    /// The tableau of the forms without their constants. Form number i has one slack, the variable
    /// `variables` + i, and the slacks are the first basis.
    pub fn new(alloc: Global, lins: &[Lin], variables: usize) -> Result<Tableau, RowStop>
        requires below { list_all (lin_is_below variables) lins.now ≡ true }
        requires few { variables < 2 ^ 32 }
        ensures made { IfOk result (λ t. t ≡ first_table variables lins.now) }
        ensures within { OnOk result (length lins.now ≤ most_rows) }
        ensures too_many { IsErrOf result RowStop.TooMany → most_rows < length lins.now }
    {
        if lins.len() > MOST_ROWS {
            return Err(RowStop::TooMany);
        }
        let columns = variables + lins.len();
        let rows = equations(alloc, columns, variables, lins)?;
        let basic = numbers(alloc, variables, lins.len())?;
        let lower = no_bounds(alloc, columns)?;
        let upper = no_bounds(alloc, columns)?;
        Ok(Tableau {
            variables,
            rows,
            basic,
            lower,
            upper,
        })
    }
}
