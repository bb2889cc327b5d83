// What every memory keeps, whatever it is made of.
ghost use Rattle.std.specs.Prelude.{◌≡◌, ℕ, length};
ghost use Rattle.memory.specs.Value.{Limits, Relights, Value, Wrote, read_of};

use crate::fault::Fault;

pub trait Memory {
    // The memory as a value.
    ghost seen: { Self → Value };

    // What its maker establishes and every call keeps; the promises speak of a lawful memory. A member, and no ghost field:
    // a field of a memory over another cannot say what that other means. Lawful or not, no call traps or runs on.
    ghost lawful: { Self → Type 0 };

    // The limits of every lawful memory.
    ghost limits: { (m : Self) → lawful m → Limits (seen m) };

    // That this was the last scrap given, of a memory that remembers it.
    ghost given: { Self → ℕ → Type 0 } = { λ _ _. Unit {0} };

    fn len(&self) -> u16
        ensures { lawful self.now → result ≡ length (seen self.now).words };

    fn price(&self) -> u8
        ensures { lawful self.now → result ≡ (seen self.now).kind.price };

    fn dues(&self) -> u8
        ensures { lawful self.now → result ≡ (seen self.now).kind.dues };

    fn whole(&self) -> bool
        ensures { lawful self.now → result ≡ (seen self.now).kind.whole };

    fn lit(&self) -> bool
        ensures { lawful self.now → result ≡ (seen self.now).lit };

    // The word at a place.
    fn read(&self, place: u16) -> Result<u16, Fault>
        ensures { lawful self.now → result ≡ read_of (seen self.now) place };

    // Stores a word for the price, or is cut.
    fn write(&mut self, place: u16, word: u16) -> Result<(), Fault>
        ensures wrote { lawful self.old → lawful self.new × Wrote (seen self.old) place word result (seen self.new) }
        ensures scrap { (s : ℕ) → given self.old s → given self.new s };

    // Brings power back and settles what is in doubt, or is cut. Charge and scrap are two arguments, as the rules name them.
    fn relight(&mut self, charge: u32, scrap: u16) -> Result<(), Fault>
        ensures relit { lawful self.old → lawful self.new × Relights (seen self.old) charge result (seen self.new) }
        ensures scrap { given self.new scrap };
}
