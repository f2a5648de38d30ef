// Places of any kind, since a plan has one type of places.
use bloom_block::Bloom;
use exact_filter::{Exact, RowPlaces};
use key_codes::{Place, Placement};

/// The places of a relation's items: by their keys with another relation, or by themselves.
#[derive(Drop)]
pub enum AnyPlace {
    Bloom(Bloom),
    Exact(Exact),
    Rows(RowPlaces),
}

impl Placement for AnyPlace {
    ghost use Rattle.rpt_engine.specs.Places.{lawful_places, places_of};

    ghost seen = { places_of };

    fn items(&self) -> u32 {
        match self {
            AnyPlace::Bloom(places) => places.items(),
            AnyPlace::Exact(places) => places.items(),
            AnyPlace::Rows(places) => places.items(),
        }
    }

    fn least_words(&self) -> u32 {
        match self {
            AnyPlace::Bloom(places) => places.least_words(),
            AnyPlace::Exact(places) => places.least_words(),
            AnyPlace::Rows(places) => places.least_words(),
        }
    }

    fn place(&self, item: u32, words: u32) -> Place {
        match self {
            AnyPlace::Bloom(places) => places.place(item, words),
            AnyPlace::Exact(places) => places.place(item, words),
            AnyPlace::Rows(places) => places.place(item, words),
        }
    }

    ghost lawful = { lawful_places };
}
