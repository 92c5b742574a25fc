// An area made zero.
ghost use Rattle.run.specs.Running.{Zeroed};

// Every byte of the area is zero.
pub fn clear(area: &mut [u8])
    ensures { Zeroed (area.old, area.new) }
{
    area.fill(0);
}
