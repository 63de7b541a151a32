//! A law of disks in memory, the contract of a function that does nothing.
ghost use Rattle.tau_journal.specs.Disk.Torn.{ImagesAreTorn};

/// What a crash may leave of a disk in memory, told without going call by call (`docs/rules.md`, "Disks"): since the last sync that
/// succeeded, each range that was written may hold any bytes, and so may what lies past the old end; all other bytes stay.
pub fn images_are_torn()
    ensures { ImagesAreTorn }
{}
