// "moves the serial on and sets Running"
ghost use Rattle.std.specs.Prelude.{◌≡◌};
ghost use Rattle.plexil.specs.Macro.{card_after};

use plexil::Card;

// "After serial 4294967295 the next serial is 0"
pub fn card_after(card: Card) -> Card
    ensures { result ≡ card_after card }
{
    Card {
        serial: std::num::wrapping_add_u32(card.serial, 1),
        phase: 0,
    }
}
