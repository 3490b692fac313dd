// Opening sectors, and putting records.
ghost use Rattle.std.specs.Prelude.{◌≡◌, ◌+◌, ◌-◌, ◌/◌, ◌<◌, ◌≤◌, ◌∷◌, [], true, is_err, length, OnOk, OnErr, ◌==◌, if◌then◌else◌};
ghost use Rattle.flash_sim.specs.declared.flash.TheConstants.{PROGRAM_LIMIT};
ghost use Rattle.flash_map.specs.Area.{sector_size, OthersStay};
ghost use Rattle.flash_map.specs.Touches.{Touches};
ghost use Rattle.flash_map.specs.Units.{IsUnit, padded};
ghost use Rattle.fcb_ring.specs.Changing.{cost_on, header_on, kept_room, is_too_long, has_room, is_scratch_left, newest_place, next_place, FitsOpened, end_for, EndsWithRecord, next_id, append_lost, stays_for, place_for, AppendEnds, RotateEnds, WritesRecord};
ghost use Rattle.fcb_ring.specs.Ends.{Opened, StopsOpening, PutsInNewest, StopsInNewest, PutsInNext, StopsInNext};
ghost use Rattle.fcb_ring.specs.Gains.{GainsRecord, CutRing};
ghost use Rattle.fcb_ring.specs.Standing.{StandsOn, KeepsEntries, is_finished};
ghost use Rattle.fcb_ring.specs.Writing.{record_image, record_cost};

use crate::image::{SHORT, header_image, record_cost, write_record};
use crate::ring::{Ring, Stage};
use flash_map::{Geometry, area_program, geometry, padded};
use flash_sim::{Flash, PROGRAM_LIMIT, PowerLost};

/// Why a record was not appended, or no sector was opened.
#[derive(Clone, Copy, Debug, PartialEq, Eq)]
pub enum AppendFault {
    /// There is no room: only the scratch sector is free.
    Full,
    /// The body is empty, or no sector could hold the record.
    TooLong,
    /// Power was off, or was lost in the call.
    PowerLost,
}

// Whether no sector could hold a record with a body of this length that leaves so much room.
fn is_too_long(geometry: Geometry, kept: u32, len: u32) -> bool
    requires unit { IsUnit geometry.unit }
    requires len { len ≤ PROGRAM_LIMIT }
    ensures { result ≡ is_too_long geometry.unit geometry.sector kept len }
{
    let room = geometry
        .sector
        .saturating_sub(padded(geometry.unit, 8))
        .saturating_sub(kept);
    len == 0 || room < record_cost(geometry.unit, len)
}

impl Ring {
    // The room in bytes that a record leaves in its sector.
    fn kept_room(&self, into_reserve: bool) -> u32
        ensures { result ≡ kept_room self.now into_reserve }
    {
        if into_reserve { 0 } else { self.reserve }
    }

    // Whether a record with a body of this length fits behind those of the newest sector.
    fn has_room(&self, geometry: Geometry, kept: u32, len: u32) -> bool
        requires unit { IsUnit geometry.unit }
        requires len { len ≤ PROGRAM_LIMIT }
        ensures { result ≡ has_room geometry.unit geometry.sector self.now kept len }
    {
        let end = self.end as u64 + record_cost(geometry.unit, len) as u64 + kept as u64;
        0 < self.used && end <= geometry.sector as u64
    }

    /// Whether only the scratch sector is free.
    pub fn is_scratch_left(&self) -> bool
        ensures { result ≡ is_scratch_left self.now }
    {
        u64::from(self.used) + 1 == u64::from(self.area.sectors)
    }

    // The id of the sector that is opened next.
    fn next_id(&self) -> u16
        ensures { result ≡ next_id self.now }
    {
        if self.used == 0 {
            0
        } else {
            self.id.wrapping_add(1)
        }
    }

    // Opens the sector behind the newest, with the next id.
    pub(crate) fn open_next<F: Flash>(
        &mut self,
        flash: &mut F,
        next: Stage,
    ) -> Result<(), PowerLost>
        requires stands { StandsOn (F.device flash.old) self.old }
        requires ready { self.old.stage ≡ Stage.Ready }
        requires fits { FitsOpened next (self.old.used + 1) self.old.area.sectors }

        ensures touches { Touches (self.old.area ∷ []) (F.device flash.old) (F.device flash.new)
            (is_err result) }
        ensures list { KeepsEntries (F.device flash.old) (F.device flash.new) self.old.area }
        ensures others { OthersStay (F.device flash.old) (F.device flash.new) self.old.area
            (next_place self.old) }

        ensures opened { let d = F.device flash.old in
            OnOk result (Opened d (F.device flash.new) self.old self.new next) }
        ensures stopped { let d = F.device flash.old in
            OnErr result (StopsOpening d (F.device flash.new) self.old self.new) }
    {
        let unit = geometry(flash, &self.area).unit;
        let place = self.place(self.used);
        let id = self.next_id();
        let header = header_image(id);
        let end = padded(unit, 8);
        self.stage = Stage::Down;
        area_program(flash, &self.area, place, 0, &header[..end as usize])?;
        self.used += 1;
        self.id = id;
        self.end = end;
        self.stage = next;
        Ok(())
    }

    // Puts a record behind those of the newest sector.
    pub(crate) fn put_record<F: Flash>(
        &mut self,
        flash: &mut F,
        body: &[u8],
    ) -> Result<(), PowerLost>
        requires stands { StandsOn (F.device flash.old) self.old }
        requires writes { is_finished self.old.stage ≡ true }
        requires some { 0 < self.old.used }
        requires short { cost_on (F.device flash.old) self.old.area (length body.now)
            ≤ PROGRAM_LIMIT }
        requires fits { let d = F.device flash.old in
            self.old.end + cost_on d self.old.area (length body.now) ≤ sector_size d self.old.area }

        ensures touches { Touches (self.old.area ∷ []) (F.device flash.old) (F.device flash.new)
            (is_err result) }
        ensures others { OthersStay (F.device flash.old) (F.device flash.new) self.old.area
            (newest_place self.old) }

        ensures put { let d = F.device flash.old in
            OnOk result (PutsInNewest d (F.device flash.new) self.old self.new body.now) }
        ensures stopped { let d = F.device flash.old in
            OnErr result (StopsInNewest d (F.device flash.new) self.old self.new body.now) }
    {
        let unit = geometry(flash, &self.area).unit;
        if record_cost(unit, body.len() as u32) as usize <= SHORT {
            let mut buffer = [0; SHORT];
            return self.put_image(flash, body, &mut buffer);
        }
        let mut buffer = [0; PROGRAM_LIMIT];
        self.put_image(flash, body, &mut buffer)
    }

    // The same, with room for the record.
    fn put_image<F: Flash>(
        &mut self,
        flash: &mut F,
        body: &[u8],
        buffer: &mut [u8],
    ) -> Result<(), PowerLost>
        requires stands { StandsOn (F.device flash.old) self.old }
        requires writes { is_finished self.old.stage ≡ true }
        requires some { 0 < self.old.used }
        requires short { cost_on (F.device flash.old) self.old.area (length body.now)
            ≤ PROGRAM_LIMIT }
        requires room { cost_on (F.device flash.old) self.old.area (length body.now)
            ≤ length buffer.old }
        requires fits { let d = F.device flash.old in
            self.old.end + cost_on d self.old.area (length body.now) ≤ sector_size d self.old.area }

        ensures touches { Touches (self.old.area ∷ []) (F.device flash.old) (F.device flash.new)
            (is_err result) }
        ensures others { OthersStay (F.device flash.old) (F.device flash.new) self.old.area
            (newest_place self.old) }

        ensures put { let d = F.device flash.old in
            OnOk result (PutsInNewest d (F.device flash.new) self.old self.new body.now) }
        ensures stopped { let d = F.device flash.old in
            OnErr result (StopsInNewest d (F.device flash.new) self.old self.new body.now) }
    {
        let unit = geometry(flash, &self.area).unit;
        let len = write_record(buffer, unit, body);
        let place = self.place(self.used - 1);
        let stage = self.stage;
        self.stage = Stage::Down;
        area_program(flash, &self.area, place, self.end, &buffer[..len])?;
        self.end += len as u32;
        self.stage = stage;
        Ok(())
    }
}

impl Ring {
    // Opens the next sector, and puts a record into it.
    fn put_in_next<F: Flash>(&mut self, flash: &mut F, body: &[u8]) -> Result<(), PowerLost>
        requires stands { StandsOn (F.device flash.old) self.old }
        requires ready { self.old.stage ≡ Stage.Ready }
        requires free { self.old.used + 1 < self.old.area.sectors }
        requires short { cost_on (F.device flash.old) self.old.area (length body.now)
            ≤ PROGRAM_LIMIT }
        requires fits { let d = F.device flash.old in
            header_on d self.old.area + cost_on d self.old.area (length body.now)
            ≤ sector_size d self.old.area }

        ensures touches { Touches (self.old.area ∷ []) (F.device flash.old) (F.device flash.new)
            (is_err result) }

        ensures others { OthersStay (F.device flash.old) (F.device flash.new) self.old.area
            (next_place self.old) }

        ensures put { let d = F.device flash.old in
            OnOk result (PutsInNext d (F.device flash.new) self.old self.new body.now) }
        ensures stopped { let d = F.device flash.old in
            OnErr result (StopsInNext d (F.device flash.new) self.old self.new body.now) }
    {
        self.open_next(flash, Stage::Ready)?;
        self.put_record(flash, body)?;
        Ok(())
    }

    /// Adds a record with this body at the end of the list. It goes into the newest sector, if it
    /// fits there and leaves `reserve` bytes (none if it goes `into_reserve`). Otherwise the next
    /// sector is opened for it, and its header is written whole, padding too.
    ///
    /// # Errors
    /// `TooLong` if the body is empty or no sector could hold the record; `Full` if it does not fit
    /// and only the scratch sector is free. Neither changes anything. `PowerLost`: the ring is
    /// down. The list is the old one or has the record too; or, if the record's first units with FF
    /// behind them check by chance, it has the body that these spell. The sector for the record
    /// holds its old records and at most one more, of this record's length, which may not check.
    pub fn append<F: Flash>(
        &mut self,
        flash: &mut F,
        body: &[u8],
        into_reserve: bool,
    ) -> Result<(), AppendFault>
        requires stands { StandsOn (F.device flash.old) self.old }
        requires ready { self.old.stage ≡ Stage.Ready }
        requires short { cost_on (F.device flash.old) self.old.area (length body.now)
            ≤ PROGRAM_LIMIT }

        ensures touches { Touches (self.old.area ∷ []) (F.device flash.old) (F.device flash.new)
            (append_lost result) }
        ensures area { self.new.area ≡ self.old.area }
        ensures reserve { self.new.reserve ≡ self.old.reserve }
        ensures others { let d = F.device flash.old in
            OthersStay d (F.device flash.new) self.old.area
            (place_for d self.old body.now (kept_room self.old into_reserve)) }
        ensures written { OnOk result
            (EndsWithRecord (F.device flash.new) self.new
            (place_for (F.device flash.old) self.old body.now (kept_room self.old into_reserve))
            body.now) }
        ensures bytes { let d = F.device flash.old in
            let stays = stays_for d self.old body.now (kept_room self.old into_reserve) in
            OnOk result (WritesRecord stays d (F.device flash.new) self.old body.now) }
        ensures end { OnOk result
            (self.new.end
            ≡ end_for (F.device flash.old) self.old body.now (kept_room self.old into_reserve)) }
        ensures ends { AppendEnds (F.device flash.old) (F.device flash.new) self.old self.new
            body.now (kept_room self.old into_reserve) result }
        ensures gains { let d = F.device flash.old in let kept = kept_room self.old into_reserve in
            let place = place_for d self.old body.now kept in
            OnOk result (GainsRecord d (F.device flash.new) self.old.area place body.now true) }
        ensures torn { let d = F.device flash.old in let kept = kept_room self.old into_reserve in
            append_lost result ≡ true → d.is_on ≡ true
            → CutRing (stays_for d self.old body.now kept) d (F.device flash.new) self.old
            body.now }
    {
        let geometry = geometry(flash, &self.area);
        let kept = self.kept_room(into_reserve);
        let len = body.len() as u32;
        if is_too_long(geometry, kept, len) {
            return Err(AppendFault::TooLong);
        }
        if self.has_room(geometry, kept, len) {
            return match self.put_record(flash, body) {
                Ok(()) => Ok(()),
                Err(_) => Err(AppendFault::PowerLost),
            };
        }
        if self.is_scratch_left() {
            return Err(AppendFault::Full);
        }
        match self.put_in_next(flash, body) {
            Ok(()) => Ok(()),
            Err(_) => Err(AppendFault::PowerLost),
        }
    }

    /// Opens the next sector: writes its whole header, padding too. The list stays, even if power is
    /// lost.
    ///
    /// # Errors
    /// `Full` exactly if only the scratch sector is free: nothing changes. `PowerLost`: the ring is
    /// down. Never `TooLong`.
    pub fn rotate<F: Flash>(&mut self, flash: &mut F) -> Result<(), AppendFault>
        requires stands { StandsOn (F.device flash.old) self.old }
        requires ready { self.old.stage ≡ Stage.Ready }

        ensures touches { Touches (self.old.area ∷ []) (F.device flash.old) (F.device flash.new)
            (append_lost result) }
        ensures area { self.new.area ≡ self.old.area }
        ensures reserve { self.new.reserve ≡ self.old.reserve }
        ensures others { OthersStay (F.device flash.old) (F.device flash.new) self.old.area
            (next_place self.old) }
        ensures ends { RotateEnds (F.device flash.old) (F.device flash.new) self.old self.new
            result }
    {
        if self.is_scratch_left() {
            return Err(AppendFault::Full);
        }
        match self.open_next(flash, Stage::Ready) {
            Ok(()) => Ok(()),
            Err(_) => Err(AppendFault::PowerLost),
        }
    }
}
