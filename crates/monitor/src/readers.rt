// What can be asked of a live monitor, in the words of users, roles and sessions.
ghost use Rattle.std.specs.Prelude.{◌≡◌, ℕ, ◌≤◌, ◌↔◌, true};
ghost use Rattle.sets.specs.Sets.{has, count_below};
ghost use Rattle.monitor.specs.declared.sessions.Whose.TheVariants.{Anyone, User};
ghost use Rattle.monitor.specs.Authority.{Authorised};
ghost use Rattle.monitor.specs.Cells as cells;
ghost use Rattle.monitor.specs.Governed.{tables_of, cells_of};
ghost use Rattle.monitor.specs.Monitors.{state_of};
ghost use Rattle.monitor.specs.Sessions.{active_in};
ghost use Rattle.monitor.specs.Standing.{AssignedToAny, ActiveFor, ActiveForAny};
ghost use Rattle.monitor.specs.Standing.{is_seat, pairs_below};

use crate::governed::GovernedState;
use crate::monitors::Monitor;
use crate::sessions::Whose;
use sets::RoleSet;

impl<P> Monitor<P> {
    /// The state, under its policy.
    pub fn state(&self) -> &GovernedState
        ensures { result.now ≡ state_of self.now }
    {
        &self.governed
    }

    /// Whether the user is authorised for the role: assigned some role that is senior to it.
    pub fn is_authorised(&self, user: u8, role: u8) -> bool
        ensures answer { result ≡ cells.is_authorised (cells_of (state_of self.now)) user role }
        ensures relation { (result ≡ true) ↔ Authorised (tables_of (state_of self.now))
            (cells_of (state_of self.now)) user role }
    {
        self.governed.is_authorised(user, role)
    }

    /// The roles active for the user: in some session of theirs.
    pub fn active_for(&self, user: u8) -> RoleSet
        ensures answer { result ≡ record {
          bits = active_in (User user) (cells_of (state_of self.now)).sessions;
        } }
        ensures sessions { (r : ℕ) → (has result.bits r ≡ true)
            ↔ ActiveFor (cells_of (state_of self.now)) user r }
    {
        self.governed.active_in(Whose::User { user })
    }

    /// How many seats the user takes, 2,048 at most: one for each role active in each of their
    /// sessions. The different roles active for the user are never more.
    pub fn seats(&self, user: u8) -> u32
        ensures answer { result ≡ cells.seats (cells_of (state_of self.now)) user }
        ensures pairs { result ≡ pairs_below (tables_of (state_of self.now)).sizes.sessions 32
            (is_seat (cells_of (state_of self.now)) user) }
        ensures different { count_below 32
            (cells.is_active_for (cells_of (state_of self.now)) (User user)) ≤ result }
    {
        self.governed.seats(user)
    }

    /// In how many sessions the role is active, 64 at most.
    pub fn using(&self, role: u8) -> u8
        ensures answer { result ≡ cells.using (cells_of (state_of self.now)) role }
        ensures sessions { result ≡ count_below (tables_of (state_of self.now)).sizes.sessions
            (λ s. cells.is_active (cells_of (state_of self.now)) s role) }
        ensures some { (1 ≤ result) ↔ ActiveForAny (cells_of (state_of self.now)) role }
    {
        self.governed.using(role)
    }

    /// Whether the role is assigned to some user.
    pub fn is_assigned_to_any(&self, role: u8) -> bool
        ensures answer { result
            ≡ has (cells.assigned_in (cells_of (state_of self.now)).assigned) role }
        ensures users { (result ≡ true) ↔ AssignedToAny (cells_of (state_of self.now)) role }
    {
        self.governed.assigned_to_any().contains(role)
    }

    /// Whether the role is active in some session, of anyone.
    pub fn is_active_for_any(&self, role: u8) -> bool
        ensures answer { result ≡ cells.is_active_for (cells_of (state_of self.now)) Anyone role }
        ensures sessions { (result ≡ true) ↔ ActiveForAny (cells_of (state_of self.now)) role }
    {
        self.governed.active_in(Whose::Anyone).contains(role)
    }
}
