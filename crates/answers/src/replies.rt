// Each question's own answer, of what the work told.
ghost use Rattle.std.specs.Prelude.{◌≡◌};
ghost use Rattle.answers.specs.Questions.{check_of, located_of, copied_of, listed_of, related_of, ordered_of, text_read_of, sourced_of};

use super::{Checked, Copied, Found, Listed, Related, Sourced, TextRead, Told};
use order::Ordered;

impl From<Told> for Checked {
    ghost from_gives = { λ told r. r ≡ check_of told };

    fn from(told: Told) -> Checked {
        Checked {
            number: told.number,
            place: told.place,
            headers: told.headers,
            elements: told.elements,
        }
    }
}

impl From<Told> for Found {
    ghost from_gives = { λ told r. r ≡ located_of told };

    fn from(told: Told) -> Found {
        Found {
            number: told.number,
            place: told.place,
            first: told.first,
            past: told.past,
        }
    }
}

impl From<Told> for Copied {
    ghost from_gives = { λ told r. r ≡ copied_of told };

    fn from(told: Told) -> Copied {
        Copied {
            number: told.number,
            place: told.place,
            length: told.length,
        }
    }
}

impl From<Told> for Listed {
    ghost from_gives = { λ told r. r ≡ listed_of told };

    fn from(told: Told) -> Listed {
        Listed {
            number: told.number,
            place: told.place,
            elements: told.elements,
            matches: told.listed,
        }
    }
}

impl From<Told> for Related {
    ghost from_gives = { λ told r. r ≡ related_of told };

    fn from(told: Told) -> Related {
        Related {
            number: told.number,
            place: told.place,
            elements: told.elements,
            children: told.listed,
        }
    }
}

impl From<Told> for TextRead {
    ghost from_gives = { λ told r. r ≡ text_read_of told };

    fn from(told: Told) -> TextRead {
        TextRead {
            number: told.number,
            place: told.place,
            elements: told.elements,
            lines: told.listed,
            length: told.length,
        }
    }
}

impl From<Told> for Sourced {
    ghost from_gives = { λ told r. r ≡ sourced_of told };

    fn from(told: Told) -> Sourced {
        Sourced {
            number: told.number,
            place: told.place,
            lines: told.listed,
            sources: told.length,
        }
    }
}

impl From<Told> for Ordered {
    ghost from_gives = { λ told r. r ≡ ordered_of told };

    fn from(told: Told) -> Ordered {
        Ordered {
            number: told.number,
            place: told.place,
        }
    }
}
