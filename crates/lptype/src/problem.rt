ghost use Rattle.std.specs.Prelude.{◌≡◌, ◌∷◌, Some, None, Decides, Option};
ghost use Rattle.rows.specs.List.{positions};
ghost use Rattle.rows.specs.Pool.{pooled};
ghost use Rattle.rows.specs.Row.{HasRow, Named};
ghost use Rattle.lptype.specs.Meaning.{Meaning, Admitted, Raises, Stands};
ghost use Rattle.lptype.specs.Places.{FineAt, AllFine};
ghost use Rattle.lptype.specs.Search.{StandsAt, QuietAt, Qualifies, IfServing, FirstServing, BasisAnswer};
ghost use Rattle.lptype.specs.Laws.{Laws};
ghost use Rattle.lptype.specs.Questions.{ReadsBest, SoundAnswer, StandsAnswer, ViolatesAnswer, ExchangeAnswer, AnswerAnswer};

use rows::positions::Positions;
use rows::positions::pool::Pool;
use rows::refusal::Refusal;
use rows::row::picking::picked;
use rows::row::{Constraint, Row, all_named, constraint_at, has_row, row_at};

// An LP-type problem: its meaning, the laws, and the questions that it answers.
// Rows and a list of positions are two parameters: a register keeps its list while its rows change, so a struct of both is no plainer.
// That rows are admitted, or stand, is asked by clauses: it speaks of the meaning, so a type for such rows would hold the problem too,
// and be no plainer.
pub trait Problem {
    type Answer;

    ghost meaning: { Self → Meaning };

    // Which rivals, or none, an answer stands for.
    ghost reads: { (p : Self) → Self.Answer → Option (meaning p).Rival → Type 0 };

    fn dimension(&self) -> usize
        ensures { result ≡ (meaning self.now).dimension };

    // Three numbers and no constraint, since the parish does not count here.
    fn admits(&self, a: i32, b: i32, c: i32) -> bool
        ensures { result ≡ (meaning self.now).admitted a b c };

    // Whether the position has an admitted row.
    fn admits_at(&self, rows: &[Row], position: i64) -> bool
        ensures { Decides result (FineAt (meaning self.now) rows.now position) }
    {
        row_at(rows, position).is_some_and(|row| self.admits(
            row.constraint.a,
            row.constraint.b,
            row.constraint.c,
        ))
    }

    // Whether each position of the list has an admitted row.
    fn admits_all(&self, rows: &[Row], list: &[i64]) -> bool
        ensures { Decides result (AllFine (meaning self.now) rows.now list.now) }
    {
        list.iter().all(|p| self.admits_at(rows, *p))
    }

    // Each position of the list has a row, and each row is admitted.
    fn sound(&self, rows: &[Row], list: &[i64]) -> Result<(), Refusal>
        ensures { SoundAnswer (meaning self.now) rows.now list.now result }
    {
        if !all_named(rows, list) {
            return Err(Refusal::NoRow);
        }
        if !self.admits_all(rows, list) {
            return Err(Refusal::NotAdmitted);
        }
        Ok(())
    }

    // The same of the list with one more position.
    fn sound_with(&self, rows: &[Row], list: &[i64], h: i64) -> Result<(), Refusal>
        ensures { SoundAnswer (meaning self.now) rows.now (h ∷ list.now) result }
    {
        if !has_row(rows, h) {
            return Err(Refusal::NoRow);
        }
        self.sound(rows, list)?;
        if !self.admits_at(rows, h) {
            return Err(Refusal::NotAdmitted);
        }
        Ok(())
    }

    // Whether leaving out any one of the rows lowers the value.
    fn is_standing(&self, list: &[Constraint]) -> bool
        requires { Admitted (meaning self.now) list.now }
        ensures { Decides result (Stands (meaning self.now) list.now) };

    // Whether adding a row raises the value of rows that stand.
    fn is_raised(&self, list: &[Constraint], row: Constraint) -> bool
        requires admitted { Admitted (meaning self.now) (row ∷ list.now) }
        requires stands { Stands (meaning self.now) list.now }
        ensures { Decides result (Raises (meaning self.now) list.now row) };

    // The best rival for rows that stand, or none.
    fn best(&self, list: &[Constraint]) -> Self::Answer
        requires admitted { Admitted (meaning self.now) list.now }
        requires stands { Stands (meaning self.now) list.now }
        ensures { ReadsBest (meaning self.now) (reads self.now) list.now result };

    // Whether leaving out any one row of the list lowers the value.
    fn stands(&self, rows: &[Row], list: &Positions) -> Result<bool, Refusal>
        ensures { StandsAnswer (meaning self.now) rows.now (positions list.now) result }
    {
        self.sound(rows, list.as_slice())?;
        Ok(self.is_standing(&picked(rows, list)))
    }

    // Whether adding row h raises the value of the list.
    fn violates(&self, rows: &[Row], list: &Positions, h: i64) -> Result<bool, Refusal>
        ensures { ViolatesAnswer (meaning self.now) rows.now (positions list.now) h result }
    {
        self.sound_with(rows, list.as_slice(), h)?;
        let constraints = picked(rows, list);
        if !self.is_standing(&constraints) {
            return Err(Refusal::NotStanding);
        }
        Ok(self.is_raised(&constraints, constraint_at(rows, h)))
    }

    // The best rival for the rows of the list, or none.
    fn answer(&self, rows: &[Row], list: &Positions) -> Result<Self::Answer, Refusal>
        ensures { AnswerAnswer (meaning self.now) (reads self.now) rows.now (positions list.now) result }
    {
        if !self.stands(rows, list)? {
            return Err(Refusal::NotStanding);
        }
        Ok(self.best(&picked(rows, list)))
    }

    // Whether the list stands.
    fn stands_at(&self, rows: &[Row], list: &Positions) -> bool
        ensures { Decides result (StandsAt (meaning self.now) rows.now (positions list.now)) }
    {
        matches!(self.stands(rows, list), Ok(true))
    }

    // Whether the list stands, and row h does not raise its value.
    fn quiet_at(&self, rows: &[Row], list: &Positions, h: i64) -> bool
        ensures { Decides result (QuietAt (meaning self.now) rows.now (positions list.now) h) }
    {
        matches!(self.violates(rows, list, h), Ok(false))
    }

    // Whether the list stands, and no row of the pool raises its value.
    fn qualifies(&self, rows: &[Row], list: &Positions, pool: &[i64]) -> bool
        ensures { Decides result (Qualifies (meaning self.now) rows.now (positions list.now) pool.now) }
    {
        pool.iter().all(|p| self.quiet_at(rows, list, *p)) && self.stands_at(rows, list)
    }

    // The list that the mask chooses from the pool, if it qualifies.
    fn serving(&self, rows: &[Row], pool: &Pool, mask: u16) -> Option<Positions>
        ensures { IfServing (meaning self.now) rows.now (pooled pool.now) mask result }
    {
        pool.pick(mask)
            .filter(|list| self.qualifies(rows, list, pool.as_slice()))
    }

    // The first list from the pool that qualifies.
    fn basis_of(&self, rows: &[Row], pool: &Pool) -> Option<Positions>
        ensures { FirstServing (meaning self.now) rows.now (pooled pool.now) result }
    {
        for mask in 0..pool.choices() {
            if let Some(list) = self.serving(rows, pool, mask) {
                return Some(list);
            }
        }
        None
    }

    // A basis of the list with row h: the list itself where h does not violate it.
    fn basis_with(&self, rows: &[Row], list: &Positions, h: i64) -> Result<Positions, Refusal>
        ensures { BasisAnswer (meaning self.now) rows.now (positions list.now) h result }
    {
        if !self.violates(rows, list, h)? {
            return Ok(*list);
        }
        Ok(self.basis_of(rows, &list.with(h)).unwrap_or(*list))
    }

    // Makes the list a basis of its rows with row h.
    fn exchange(&self, rows: &[Row], list: &mut Positions, h: i64) -> Result<(), Refusal>
        ensures { ExchangeAnswer (meaning self.now) rows.now (positions list.old) h (positions list.new) result }
    {
        *list = self.basis_with(rows, list, h)?;
        Ok(())
    }

    ghost lawful: { (p : Self) → Laws (meaning p) };

    // An answer that stands for none stands for no rival.
    ghost apart: { (p : Self) (a : Self.Answer) (r : (meaning p).Rival) → reads p a None → reads p a (Some r) → ⊥ };
}
