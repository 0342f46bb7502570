//! A sheet is made, solved and told.

use crate::draw::Pair;
use crate::kinds::Trial;
use crate::lent_tables::Lent;
use crate::line::Order;
use assign::{Outcome, optimum, settle};
use blockset::BlockSet;
use std::alloc::{AllocError, Global};
use tables::{PairRows, Tables};
use walk::certify;

impl<K: Trial> Lent<K> {
    /// Makes all pairs of a sheet.
    fn fill(&mut self, order: Order) {
        let cells = self.costs.iter_mut().zip(self.standing.iter_mut());
        for (place, (cost, byte)) in cells.enumerate() {
            let pair = Pair::at(order, place);
            *cost = K::made(&mut &pair.columns()[..]);
            *byte = u8::from(pair.stands());
        }
    }

    /// What the pairing costs.
    fn total(&self) -> K {
        let mut total = K::zero();
        for (left, right) in (0..self.n).zip(&self.partners) {
            if let Some(cost) = self.cost(left, *right) {
                total = total.add(cost);
            }
        }
        total
    }

    /// Appends the total, the prices, the tight pairs and the first optimum pairing.
    fn tell(&mut self, text: &mut String) -> Result<(), AllocError> {
        text.push_str("total")?;
        self.total().show(text)?;
        text.push_str("\nleft")?;
        show_all(self.left.as_slice(), text)?;
        text.push_str("\nright")?;
        show_all(self.right.as_slice(), text)?;
        self.tell_tight(text)
    }

    /// Makes the pairing the first optimum one; false where the tables are refused or hold no
    /// pairing.
    fn settle(&mut self) -> bool {
        let outcome = settle(
            self.n,
            &self.costs,
            &self.standing,
            &mut self.partners,
            &mut self.left,
            &mut self.right,
        );
        matches!(outcome, Ok(Outcome::Optimal))
    }

    /// The rows of the tight pairs, if the tables hold together.
    fn certify(&self) -> Option<PairRows> {
        certify(&Tables {
            size: self.n,
            costs: &self.costs,
            standing: &self.standing,
            partners: &self.partners,
            left: &self.left,
            right: &self.right,
        })
    }

    /// Appends the tight pairs and the first optimum pairing.
    fn tell_tight(&mut self, text: &mut String) -> Result<(), AllocError> {
        let certified = self.certify();
        let rows = match (certified, self.settle()) {
            (Some(rows), true) => rows,
            _ => return text.push_str("\nno pairing of tight pairs\n"),
        };
        text.push_str("\ntight")?;
        show_sets(rows.as_slice(), text)?;
        text.push_str("\nfirst")?;
        show_numbers(&self.partners, text)?;
        text.push_str("\n")
    }
}

/// Appends all values, each behind a bar.
fn show_all<K: Trial>(values: &[K], text: &mut String) -> Result<(), AllocError> {
    for value in values {
        text.push_str(" |")?;
        value.show(text)?;
    }
    Ok(())
}

fn show_sets(rows: &[BlockSet], text: &mut String) -> Result<(), AllocError> {
    for row in rows {
        let bits = row.bits();
        write!(text, " {bits:016x}")?;
    }
    Ok(())
}

fn show_numbers(numbers: &[u16], text: &mut String) -> Result<(), AllocError> {
    for number in numbers {
        write!(text, " {number}")?;
    }
    Ok(())
}

/// What is found out about a sheet of a cost kind, as text.
pub fn solve<K: Trial>(heap: Global, order: Order) -> anyhow::Result<String> {
    let mut text = String::new(heap);
    let mut lent = Lent::<K>::new(heap, order.n)?;
    lent.fill(order);
    match optimum(
        order.n,
        &lent.costs,
        &lent.standing,
        &mut lent.partners,
        &mut lent.left,
        &mut lent.right,
    ) {
        Ok(Outcome::Optimal) => lent.tell(&mut text)?,
        Ok(Outcome::Unmatched(shortfall)) => {
            let (crowd, short) = (shortfall.crowd, shortfall.short);
            write!(text, "unmatched {crowd:016x} {short}\n")?;
        }
        Err(_) => text.push_str("refused\n")?,
    }
    Ok(text)
}
