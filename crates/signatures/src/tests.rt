// The layer over rows at its edges: literals that share a bit, more places below
// than the layer has, a wipe, a layer over a layer, and which questions reach the
// shelf below.
ghost use Rattle.rows.specs.Shelves.{in_order, meaning, words_of};
ghost use Rattle.rows.specs.Soundness.{sound_rows};

use crate::SignatureLayer;
use crate::stacks::{lone_literal_on_layers, lone_literal_on_rows};
use rows::RowShelf;
use shelf::literal::Literal;
use shelf::refusal::Refusal;
use shelf::store::Shelf;
use std::cell::Cell;
use std::test::Fail;

// Rows that count how often they are asked whether they hold a literal.
#[derive(Drop)]
struct Counting<'a> {
    rows: RowShelf<'a>,
    asked: Cell<u32>,
}

impl Counting<'_> {
    fn times_asked(&self) -> u32 {
        self.asked.get()
    }
}

impl<'a> Shelf for Counting<'a> {
    ghost fine = { λ s. in_order s.rows };

    ghost view = { λ s. meaning s.rows };

    ghost sound = { λ s f. sound_rows s.rows.places s.rows.highest s.rows.longest (words_of s.rows) f };

    fn place_count(&self) -> usize {
        self.rows.place_count()
    }

    fn highest_variable(&self) -> usize {
        self.rows.highest_variable()
    }

    fn longest_clause(&self) -> usize {
        self.rows.longest_clause()
    }

    fn size(&self, place: usize) -> usize {
        self.rows.size(place)
    }

    fn literal(&self, place: usize, k: usize) -> Literal {
        self.rows.literal(place, k)
    }

    fn holds(&self, place: usize, literal: Literal) -> bool {
        self.asked.set(self.asked.get().wrapping_add(1));
        self.rows.holds(place, literal)
    }

    fn add(&mut self, place: usize, literal: Literal) -> Result<(), Refusal> {
        self.rows.add(place, literal)
    }

    fn wipe(&mut self, place: usize) -> Result<(), Refusal> {
        self.rows.wipe(place)
    }
}

#[test]
fn a_bit_that_is_not_set_spares_the_question(rt: HostRuntime) -> Result<(), Fail> {
    let mut words = [0u32; 8];
    let rows = RowShelf::new(&mut words, 100, 3);
    let mut layer = SignatureLayer::new(Counting {
        rows,
        asked: Cell::new(0),
    });
    layer.add(1, Literal::of(1))?;
    assert!(rt; !layer.holds(1, Literal::of(2)));
    assert!(rt; !layer.holds(0, Literal::of(1)));
    assert_eq!(rt; layer.below.times_asked(), 0);
    assert!(rt; !layer.holds(1, Literal::of(33)));
    assert_eq!(rt; layer.below.times_asked(), 1);
    assert!(rt; layer.holds(1, Literal::of(1)));
    assert_eq!(rt; layer.below.times_asked(), 2);
    Ok(())
}

#[test]
fn literals_share_a_bit_and_a_wipe_clears_it(rt: HostRuntime) -> Result<(), Fail> {
    let mut words = [0u32; 4];
    let mut layer = SignatureLayer::new(RowShelf::new(&mut words, 100, 3));
    layer.add(0, Literal::of(1))?;
    layer.add(0, Literal::of(33))?;
    assert_eq!(rt; layer.literal(0, 0).code, 2);
    assert_eq!(rt; layer.literal(0, 1).code, 66);
    assert!(rt; layer.holds(0, Literal::of(1)));
    assert!(rt; layer.holds(0, Literal::of(33)));
    assert!(rt; !layer.holds(0, Literal::of(65)));
    layer.wipe(0)?;
    assert!(rt; !layer.holds(0, Literal::of(1)));
    assert!(rt; !layer.holds(0, Literal::of(33)));
    Ok(())
}

#[test]
fn places_past_the_layer_stay(rt: HostRuntime) -> Result<(), Fail> {
    let mut words = [0u32; 8194];
    let mut rows = RowShelf::new(&mut words, 4, 1);
    rows.add(4095, Literal::of(1))?;
    rows.add(4096, Literal::not(3))?;
    let mut layer = SignatureLayer::new(rows);
    assert_eq!(rt; layer.place_count(), 4096);
    assert_eq!(rt; (layer.size(4095), layer.size(4096)), (0, 0));
    assert_eq!(rt; layer.literal(4096, 0).code, 0);
    assert!(rt; !layer.holds(4096, Literal::not(3)));
    assert_eq!(rt;
        layer.add(4096, Literal::of(1)).map_err(Refusal::number),
        Err(81)
    );
    assert_eq!(rt; layer.wipe(4096).map_err(Refusal::number), Err(81));
    layer.add(4095, Literal::of(2))?;
    let rows = layer.into_below();
    assert_eq!(rt; rows.literal(4095, 0).code, 4);
    assert_eq!(rt; rows.literal(4096, 0).code, 7);
    Ok(())
}

#[test]
fn a_layer_over_a_layer(rt: HostRuntime) -> Result<(), Fail> {
    let mut words = [7u32; 8];
    {
        let layer = SignatureLayer::new(RowShelf::new(&mut words, 4, 3));
        let mut upper = SignatureLayer::new(layer);
        upper.add(1, Literal::not(4))?;
        assert!(rt; upper.holds(1, Literal::not(4)));
        assert!(rt; !upper.holds(1, Literal::of(4)));
        assert_eq!(rt; upper.place_count(), 2);
        assert_eq!(rt; upper.highest_variable(), 4);
        assert_eq!(rt; upper.longest_clause(), 3);
    }
    assert_eq!(rt; words, [0, 0, 0, 0, 1, 9, 0, 0]);
    assert_eq!(rt;
        lone_literal_on_rows(&mut words, 4, 3, Literal::of(2)),
        Ok(1)
    );
    assert!(rt; lone_literal_on_layers(&mut words, 4, 3, Literal::of(5)).is_err());
    Ok(())
}
