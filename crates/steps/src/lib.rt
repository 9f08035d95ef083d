// Module 1: the mode, from the three switches of the target; how a bit of an attr is read; and what holds a method.

#![tactic(auto)]

ghost use Rattle.std.specs.Prelude.{◌≡◌, ◌≤◌};
ghost use Rattle.grammar.specs.Codes.{kind_number};
ghost use Rattle.steps.specs.Mode.{bit, mode_of, switches, is_disabled, is_async_only, moves};
ghost use Rattle.steps.specs.Refusals.{method_holder};

use grammar::kind::Kind;

// The mode of the conversion of arrow functions.
#[derive(Clone, Copy, PartialEq, Eq)]
pub enum ArrowFunctionConverterMode {
    // Rows are copied, and no bindings are made.
    Disabled,
    // Every plain arrow becomes a function.
    Enabled,
    // Only async code that will be moved is made safe.
    AsyncOnly,
}

// What the switches of the target say.
#[derive(Clone, Copy)]
pub struct ArrowFunctionConverter {
    pub mode: ArrowFunctionConverterMode,
    pub async_to_generator_enabled: bool,
    pub async_generator_functions_enabled: bool,
}

impl ArrowFunctionConverter {
    pub fn new(
        arrow_function: bool,
        async_to_generator: bool,
        async_generator_functions: bool,
    ) -> ArrowFunctionConverter
        ensures { (result.mode ≡ mode_of (switches arrow_function async_to_generator async_generator_functions))
            × ((result.async_to_generator_enabled ≡ async_to_generator) × (result.async_generator_functions_enabled ≡ async_generator_functions)) }
    {
        ArrowFunctionConverter {
            mode: mode_of(
                arrow_function,
                async_to_generator,
                async_generator_functions,
            ),
            async_to_generator_enabled: async_to_generator,
            async_generator_functions_enabled: async_generator_functions,
        }
    }

    pub fn is_disabled(self) -> bool
        ensures { result ≡ is_disabled self.mode }
    {
        matches!(self.mode, ArrowFunctionConverterMode::Disabled)
    }

    pub fn is_async_only(self) -> bool
        ensures { result ≡ is_async_only self.mode }
    {
        matches!(self.mode, ArrowFunctionConverterMode::AsyncOnly)
    }

    // Whether an async function will be moved: async generators have a switch of their own.
    pub fn will_transform_async_function(self, is_async: bool, generator: bool) -> bool
        ensures { result ≡ moves self.async_to_generator_enabled self.async_generator_functions_enabled is_async generator }
    {
        is_async
            && if generator {
                self.async_generator_functions_enabled
            } else {
                self.async_to_generator_enabled
            }
    }
}

fn mode_of(
    arrow_function: bool,
    async_to_generator: bool,
    async_generator_functions: bool,
) -> ArrowFunctionConverterMode
    ensures { result ≡ mode_of (switches arrow_function async_to_generator async_generator_functions) }
{
    if arrow_function {
        ArrowFunctionConverterMode::Enabled
    } else if async_to_generator | async_generator_functions {
        ArrowFunctionConverterMode::AsyncOnly
    } else {
        ArrowFunctionConverterMode::Disabled
    }
}

// Whether the bit of a word, such as an attr, is set whose value is j: 1, 2, 4 or 8.
#[tactic(auto, unfolding(crate::specs::Mode::bit))]
pub fn has_bit(j: usize, word: usize) -> bool
    requires { 1 ≤ j }
    ensures { result ≡ bit j word }
{
    word / j % 2 == 1
}

// Whether the last child of a row of that kind and attr is method-like: "last child of a Method, or of a
// Property with bit 1".
pub fn holds_method(kind: Kind, attr: usize) -> bool
    ensures { result ≡ method_holder (kind_number kind) attr }
{
    match kind {
        Kind::Method => true,
        Kind::Property => has_bit(2, attr),
        _ => false,
    }
}
