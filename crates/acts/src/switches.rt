// The three switches of the target.
ghost use Rattle.std.specs.Prelude.{◌≡◌, ℕ, ◌≤◌};
ghost use Rattle.steps.specs.Mode.{mode_of, enabled, async_only, moved_function, moved_arrow};
ghost use Rattle.acts.specs.View.{switches_of};

use steps::{ArrowFunctionConverter, has_bit};

#[derive(Clone, Copy)]
pub struct Switches {
    pub arrow_function: bool,
    pub async_to_generator: bool,
    pub async_generator_functions: bool,
}

impl Switches {
    // What they say.
    pub fn converter(self) -> ArrowFunctionConverter
        ensures mode { result.mode ≡ mode_of (switches_of self) }
        ensures async_to_generator { result.async_to_generator_enabled ≡ self.async_to_generator }
        ensures async_generator_functions { result.async_generator_functions_enabled ≡ self.async_generator_functions }
    {
        ArrowFunctionConverter::new(
            self.arrow_function,
            self.async_to_generator,
            self.async_generator_functions,
        )
    }

    // The mode is Enabled.
    pub fn is_enabled(self) -> bool
        ensures { result ≡ enabled (switches_of self) }
    {
        self.arrow_function
    }

    // The mode is AsyncOnly.
    pub fn is_async_only(self) -> bool
        ensures { result ≡ async_only (switches_of self) }
    {
        self.converter().is_async_only()
    }

    // Whether the Function of that attr is moved.
    pub fn moves_function(self, attr: usize) -> bool
        ensures { result ≡ moved_function (switches_of self) attr }
    {
        self.converter()
            .will_transform_async_function(has_bit(1, attr), has_bit(2, attr))
    }

    // Whether the Arrow of that attr is moved. An Arrow is no generator.
    pub fn moves_arrow(self, attr: usize) -> bool
        ensures { result ≡ moved_arrow (switches_of self) attr }
    {
        self.converter()
            .will_transform_async_function(has_bit(1, attr), false)
    }
}
