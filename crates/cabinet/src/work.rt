// What a statement does, once its operands are read.
ghost use Rattle.std.specs.Prelude.{◌≡◌};
ghost use Rattle.cabinet.specs.Works.{passed, store_of};

use facts::set::VariableSet;
use layout::layout::Layout;
use layout::store::Store;
use program::statement::{Next, Target};

#[derive(Clone, Copy)]
pub enum Work {
    Set(Target, u16),
    Emit(u16),
    // Goes on, with so many statements passed over.
    Pass(u8),
    // The task ends, and this comes next.
    End(Next),
}

impl Work {
    // How many statements are passed over.
    pub(crate) fn passed(self) -> u8
        ensures { result ≡ passed self }
    {
        match self {
            Work::Pass(count) => count,
            Work::Set(..) | Work::Emit(_) | Work::End(_) => 0,
        }
    }

    // The store that it makes: of a variable that is not logged.
    pub(crate) fn store(self, logged: VariableSet, layout: Layout) -> Option<Store>
        ensures { result ≡ store_of logged self }
    {
        match self {
            Work::Set(Target::Variable(variable), word) if !logged.contains(variable) => {
                Some(Store {
                    place: layout.variable(variable),
                    word,
                })
            }
            _ => None,
        }
    }
}
