//! The frame of the three modules.

ghost use Rattle.s2_clock.specs.Frames.{IsFrame};
ghost use Rattle.s2_plant.specs.StepParts.{framed_modules};
ghost use Rattle.s2_triplex.specs.TriplexState.{module_at};
ghost use Rattle.std.specs.Prelude.{ℕ, ◌≡◌, ◌<◌};

use s2_module::Module;

/// A frame has so many run cycles in each module, of which none has run.
pub fn set_frames(modules: &mut [Module; 3], frame: u16)
    requires frame { IsFrame frame }
    requires first { (p : ℕ) → p < 3 → (module_at modules.old p).cpu.run ≡ 0 }
    ensures { modules.new ≡ framed_modules frame modules.old }
{
    modules[0].set_frame(frame);
    modules[1].set_frame(frame);
    modules[2].set_frame(frame);
}
